ghost use Rattle.std.specs.Prelude.{◌≡◌, ◌+◌, ◌-◌, ◌<◌, ◌≤◌, ◌^◌, ℕ, Bool, min, true, false, IfSome};
ghost use Rattle.asc_live.specs.Budget.{new_budget, passes, pays, after_visit, after_look_up};

use asc_model::MOST_WORKERS;
use std::marker::Model;

/// What a visit is charged for its jobs, in steps of the guest. It is several times what most visits take.
const VISIT_STEPS: u64 = 2_000;

/// What it is charged for a look-up in the list of each worker.
const WORKER_STEPS: u64 = 500;

/// What it is charged for each page that it copies.
const PAGE_STEPS: u64 = 256;

/// A step that was jumped over counts as so many more: it is saved, and visits may cost what they save.
const SAVED: u64 = 3;

/// So many visits that copy no page the budget pays for at most. After visits that were passed over it first grows to that
/// again. A guess wants the states of two visits in a row, and workers that are awake.
const ROW: u64 = 32;

/// What the visits of a walk may cost. It changes no answer of a run.
#[derive(Drop)]
pub struct Budget {
    // What a visit costs beside its pages, in steps of the guest.
    cost: u64,
    // What was left for visits, what they took beyond that, and how many steps were left to do, when it was last reckoned.
    // Look-ups of visits that are passed over only note how many are left: what they gain is reckoned later, at once.
    steps: u64,
    owed: u64,
    reckoned: u64,
    // How many steps were left to do at the last look-up.
    left: u64,
    // Whether the last visit was passed over.
    passing: bool,
    // Whether entries were known before the first visit.
    knows: bool,
}

impl Model for Budget {
    ghost use Rattle.std.specs.Prelude.{◌≡◌, ◌≤◌, false, None};
    ghost use Rattle.asc_live.specs.Budget as model;

    ghost Value = { model.Budget };

    ghost view = { λ b. model.after_look_up b.left None
        (model.budget b.cost b.steps b.owed b.reckoned b.passing b.knows) };

    ghost invariant = { λ b. model.IsBudget (model.budget b.cost b.steps b.owed b.reckoned b.passing b.knows)
        × (b.left ≤ b.reckoned) × (b.passing ≡ false → b.left ≡ b.reckoned) };
}

impl Budget {
    /// That of a walk with so many workers, which may know entries. It may begin with a row of visits.
    pub fn new(workers: usize, knows: bool) -> Budget
        ensures { result ≡ new_budget workers knows }
    {
        let cost = VISIT_STEPS + WORKER_STEPS * workers.min(MOST_WORKERS) as u64;
        Budget {
            cost,
            steps: ROW * cost,
            owed: 0,
            reckoned: 0,
            left: 0,
            passing: false,
            knows,
        }
    }

    /// Whether a visit is passed over. Where a kind of guess is on, each is made until the queue was filled up, also where
    /// the budget does not pay for it. Where none is, one is made only where entries are known and it is paid for.
    pub fn passes(&self, guesses: bool, filled: bool) -> bool
        ensures { result ≡ passes guesses filled self.now }
    {
        if guesses {
            filled && !self.pays()
        } else {
            !self.knows || !self.pays()
        }
    }

    // Whether it pays for a visit.
    fn pays(&self) -> bool
        ensures { result ≡ pays self.now }
    {
        if self.passing {
            ROW * self.cost + self.owed <= self.steps + (self.reckoned - self.left)
        } else {
            self.cost <= self.steps
        }
    }

    /// Notes that a visit is passed over.
    pub fn pass(&mut self)
        ensures noted { self.new ≡ record self.old { passing = true } }
        ensures after { (guesses filled : Bool) (pages : ℕ) → passes guesses filled self.old ≡ true
            → self.new ≡ after_visit guesses filled pages self.old }
    {
        self.passing = true;
    }

    /// Charges a visit that is made, and copies so many pages, where the budget pays for it: what it takes beyond the steps
    /// that are left is owed.
    pub fn charge(&mut self, pages: usize)
        requires { pages < 2 ^ 23 }
        ensures { (guesses filled : Bool) → passes guesses filled self.old ≡ false
            → self.new ≡ after_visit guesses filled pages self.old }
    {
        let charge = if self.pays() {
            self.cost + PAGE_STEPS * pages as u64
        } else {
            0
        };
        let (steps, owed) = self.reckon();
        self.steps = steps.saturating_sub(charge);
        self.owed = owed + charge.saturating_sub(steps);
        self.reckoned = self.left;
        self.passing = false;
    }

    /// Whether the last visit was passed over.
    pub fn is_passing(&self) -> bool
        ensures { result ≡ self.now.passing }
    {
        self.passing
    }

    /// The steps since the last look-up, and what this one saved, pay what is owed. By the rest it grows, up to what a row
    /// of visits costs. This one had so many steps left, and jumped over some.
    pub fn look_up(&mut self, left: u64, jumped: Option<u64>)
        requires left { left ≤ 2 ^ 40 }
        requires jumped { IfSome jumped (λ steps. steps ≤ 2 ^ 40) }
        ensures { self.new ≡ after_look_up left jumped self.old }
    {
        if self.passing && jumped.is_none() && left <= self.left {
            self.left = left;
            return;
        }
        let (steps, owed) = self.reckon();
        let gained = self.left.saturating_sub(left) + SAVED * jumped.unwrap_or(0);
        (self.steps, self.owed) = gain(steps, owed, gained, ROW * self.cost);
        self.reckoned = left;
        self.left = left;
    }

    // What is left for visits, and what is owed.
    fn reckon(&self) -> (u64, u64)
        ensures steps { result.0 ≡ self.now.steps }
        ensures owed { result.1 ≡ self.now.owed }
    {
        gain(
            self.steps,
            self.owed,
            self.reckoned - self.left,
            ROW * self.cost,
        )
    }
}

// What is left for visits, and what is owed, once so much was gained.
fn gain(steps: u64, owed: u64, gained: u64, most: u64) -> (u64, u64)
    requires { steps + gained < 2 ^ 64 }
    ensures steps { result.0 ≡ min (steps + (gained - owed)) most }
    ensures owed { result.1 ≡ owed - gained }
{
    (
        (steps + gained.saturating_sub(owed)).min(most),
        owed.saturating_sub(gained),
    )
}
