ghost use Rattle.std.specs.Prelude.{◌≡◌, ◌⊎◌, ◌+◌, ◌/◌, ◌<◌, ◌≤◌, ◌^◌, ◌||◌, not, [], ◌∷◌, length, true, false, None, Some};
ghost use Rattle.asc_model.specs.Shape.{length_of};
ghost use Rattle.asc_model.specs.State.{IsState, State as state};
ghost use Rattle.asc_traj.specs.Jump.{IsJump};
ghost use Rattle.asc_find.specs.Finder.{Tells, jumps_after};
ghost use Rattle.asc_find.specs.Serial.{Serial, serial_reply};
ghost use Rattle.asc_find.specs.Helper.{Plans, VisitsMachine, Sees};
ghost use Rattle.asc_run.specs.LastVisits.{no_visits, issued_after};
ghost use Rattle.asc_live.specs.Laws.{new_plan};
ghost use Rattle.asc_live.specs.Live.{IsLive, PassesOver, new_live, plan_of, told_over, given_up, refused_visit, due_by, is_needless, is_passed_over, is_guessing, offers_at, seen_after as seen_by, LearnsOf, LearnsOfWritten};
ghost use Rattle.asc_jobs.specs.Jobs.{queue_of};
ghost use Rattle.asc_live.specs.Due.{Pushes, full_of, is_filled};
ghost use Rattle.asc_live.specs.Budget.{after_look_up};

use crate::budget::Budget;
use crate::pusher::Pusher;
use crate::share::Share;
use asc_find::{Finder, Helper};
use asc_jobs::Giver;
use asc_model::MOST_AHEAD;
use asc_outside::{Gate, Point};
use asc_run::LastVisits;
use asc_shape::State;
use crossbeam_utils::sync::Unparker;
use std::alloc::Global;
use std::marker::Model;
use std::sync::Wait;

/// The helper of a walk that has workers beside it. At its visits it pushes jobs for them: guesses of later visits, to be
/// traced. It finds jumps by another finder.
///
/// Visits cost the walk time, so it has a budget for them. It is charged for each visit, and for each page of its state that
/// is copied. What a visit takes beyond the budget is owed. The steps of the walk pay what is owed, and then the budget
/// grows by them; steps that are jumped over count more.
///
/// Once the queue had been filled up, a visit that the budget does not pay for is passed over. So are those after it, until
/// the budget is whole again. Where no kind of guess is on, a visit is made only where the finder knew entries at first, and
/// the budget pays for it; then a jump is looked for, and no state is kept. At a visit that is passed over no state is kept
/// either, nothing is pushed, and the finder is asked for no step. Which visits are passed over changes no answer of a run.
///
/// Of the guesses that are then due at the other visits, the workers' share is offered to them (`Share`). Those that are
/// left to the walk count as full. Where guesses go by the last state alone, a visit at which none is offered keeps no
/// state.
///
/// Want of memory is counted, and changes no jump's being one.
#[derive(Drop)]
pub struct Live<'a, F, G, R> {
    alloc: Global,
    gate: &'a G,
    finder: F,
    pusher: Pusher<'a, R>,
    budget: Budget,
    workers: &'a Vec<Unparker>,
    visits: LastVisits,
    // Up to which visit all were guessed, where memory never was wanting.
    seen: Option<u64>,
}

impl<'a, F, G, R> Model for Live<'a, F, G, R> {
    ghost use Rattle.std.specs.Prelude.{length};
    ghost use Rattle.asc_live.specs.Live as model;

    ghost Value = { model.Live F };

    ghost view = { λ s. model.live s.finder s.visits s.pusher s.seen (length s.workers.now.items) s.budget };

    ghost invariant = { λ s. model.IsLive (model.live s.finder s.visits s.pusher s.seen (length s.workers.now.items) s.budget) };
}

impl<'a, F, G, R> Live<'a, F, G, R> {
    /// A helper that was not visited yet, with what is to be kept of its visits. Its jobs are pushed by `giver`, and
    /// `workers` wake those that run them. Whether the finder knows entries already is told by `knows`.
    pub fn new(
        alloc: Global,
        rt: &'a R,
        gate: &'a G,
        finder: F,
        giver: Giver,
        workers: &'a Vec<Unparker>,
        visits: LastVisits,
        knows: bool,
    ) -> Live<'a, F, G, R>
        requires giver { giver.pushed ≡ [] }
        requires new { visits ≡ no_visits visits.guessing }
        requires least { 1 ≤ visits.guessing.ahead }
        requires most { visits.guessing.ahead ≤ MOST_AHEAD }
        ensures live { result ≡ new_live finder giver visits.guessing (length workers.now.items) knows }
        ensures plan { plan_of result ≡ new_plan visits.guessing (Some (queue_of giver)) }
    {
        Live {
            alloc,
            gate,
            finder,
            pusher: Pusher::new(rt, giver),
            budget: Budget::new(workers.len(), knows),
            workers,
            visits,
            seen: Some(0),
        }
    }

    /// The finder that it asks.
    pub fn finder(&self) -> &F
        ensures { result.now ≡ self.now.finder }
    {
        &self.finder
    }

    /// The finder that it asks, and the giver of its queue. A caller's proof learns what holds of every such helper.
    pub fn into_parts(self) -> (F, Giver)
        ensures finder { result.0 ≡ self.entry.finder }
        ensures giver { result.1 ≡ self.entry.pusher.giver }
        ensures live { IsLive self.entry }
    {
        let Live {
            alloc: _,
            gate: _,
            finder,
            pusher,
            budget: _budget,
            workers: _,
            visits: _visits,
            seen: _,
        } = self;
        (finder, pusher.into_giver())
    }

    // Wakes a worker for each of the jobs with these tickets, the workers in turn. One that is awake looks for jobs
    // until it finds none, so that no job waits for a worker that sleeps.
    fn wake_for(&self, first: u64, end: u64) {
        for ticket in first..end {
            let turn = ticket % (self.workers.len() as u64).max(1);
            if let Some(worker) = self.workers.get(turn as usize) {
                worker.unpark();
            }
        }
    }

    // Keeps the state of a visit. Where memory is wanting it answers false, and both states are given up.
    fn keep(&mut self, state: &mut State) -> bool
        requires { self.old.seen ≡ None }
        ensures kept { result ≡ true → self.new
            ≡ record self.old { prev = self.old.last; last = Some state.old } }
        ensures stays { state.new ≡ state.old }
        ensures refused { result ≡ false → self.new ≡ refused_visit self.old }
    {
        let kept = self.visits.keep(self.alloc, state).is_ok();
        if !kept {
            self.pusher.refuse();
        }
        kept
    }

    // Keeps the state of a visit that has none before it to guess by.
    fn begin_row(&mut self, state: &mut State, number: u64)
        requires seen { self.old.seen ≡ None }
        requires filled { is_filled self.old.pusher.giver ≡ true }
        requires number { number ≤ 2 ^ 40 }
        requires full { full_of self.old.pusher < 2 ^ 62 }
        ensures begins { (self.new ≡ given_up number (Some state.old) self.old) ⊎ (self.new ≡ refused_visit self.old) }
        ensures stays { state.new ≡ state.old }
    {
        if self.keep(state) {
            self.give_up(number);
        }
    }

    // Which guesses are offered to the workers.
    fn share(&self, filled: bool) -> Share
        ensures { result ≡ record { workers = self.now.workers; filled = filled } }
    {
        Share {
            workers: self.workers.len() as u64,
            filled,
        }
    }

    // Whether a visit is passed over.
    fn is_passed_over(&self) -> bool
        ensures { result ≡ is_passed_over self.now }
    {
        self.budget.passes(self.guesses(), self.pusher.has_filled())
    }

    // Whether a kind of guess is on.
    fn guesses(&self) -> bool
        ensures { result ≡ is_guessing self.now.guessing }
    {
        let guessing = self.visits.guessing();
        guessing.last || guessing.stride
    }

    // Whether nobody needs the state of a visit: guesses go by the last state alone, and none is offered at it.
    fn is_needless(&self, number: u64) -> bool
        requires { number ≤ 2 ^ 40 }
        ensures { result ≡ is_needless number self.now }
    {
        if !self.pusher.has_filled() || self.visits.guessing().stride || !self.visits.has_last() {
            return false;
        }
        let due = self.visits.targets(number);
        self.share(true).offers_none(due.start, due.end)
    }

    // Leaves the guesses that are due at a visit to the walk, and keeps no state.
    fn leave(&mut self, number: u64)
        requires needless { is_needless number self.old ≡ true }
        requires guesses { is_guessing self.old.guessing ≡ true }
        requires number { number ≤ 2 ^ 40 }
        requires full { full_of self.old.pusher < 2 ^ 62 }
        requires seen { self.old.seen ≡ None }
        ensures { (now : state) → self.new ≡ record self.old {
          issued = issued_after self.old.guessing self.old.issued number self.old.last;
          pusher = record self.old.pusher {
            left = self.old.pusher.left + length (due_by number self.old.last (Some now) self.old);
          };
        } }
    {
        self.visits.list(number);
        self.pusher.leave(self.visits.jobs());
    }

    // Passes a visit over: no state is kept, and no job is pushed, nor offered.
    fn pass(&mut self, number: u64)
        requires passed { is_passed_over self.old ≡ true }
        requires number { number ≤ 2 ^ 40 }
        requires full { full_of self.old.pusher < 2 ^ 62 }
        ensures { PassesOver number 0 self.old self.new }
    {
        self.budget.pass();
        self.visits.pass_over(number);
        self.pusher.pass_over(self.visits.guessing());
        // Memory never was wanting, where all before it were seen.
        self.seen = seen_after(self.seen, number, 0);
    }

    // No job of a visit is pushed, nor offered.
    fn give_up(&mut self, number: u64)
        requires seen { self.old.seen ≡ None }
        requires filled { is_guessing self.old.guessing ≡ true → is_filled self.old.pusher.giver ≡ true }
        requires number { number ≤ 2 ^ 40 }
        requires full { full_of self.old.pusher < 2 ^ 62 }
        ensures { self.new ≡ given_up number self.old.last self.old }
    {
        self.visits.skip(number);
        self.pusher.pass_over(self.visits.guessing());
    }
}

impl<'a, F, G, R: Wait> Live<'a, F, G, R> {
    // Makes a visit, or passes it over.
    fn learn_of(&mut self, state: &mut State, number: u64)
        requires state { IsState state.old }
        requires number { number ≤ 2 ^ 40 }
        requires full { full_of self.old.pusher < 2 ^ 62 }
        ensures visits { LearnsOfWritten number state.old self.old self.new }
        ensures stays { state.new ≡ state.old }
    {
        if self.is_passed_over() {
            self.pass(number);
        } else {
            self.make(state, number);
        }
    }

    // Makes a visit. It stands out of the walk's loop, so that a visit that is passed over saves few registers.
    #[inline(never)]
    fn make(&mut self, state: &mut State, number: u64)
        requires made { is_passed_over self.old ≡ false }
        requires state { IsState state.old }
        requires number { number ≤ 2 ^ 40 }
        requires full { full_of self.old.pusher < 2 ^ 62 }
        ensures visits { LearnsOfWritten number state.old self.old self.new }
        ensures stays { state.new ≡ state.old }
    {
        let before = self.seen.take();
        let keeps_none = !self.guesses() || self.is_needless(number);
        let pages = copied(state, keeps_none);
        self.make_unseen(state, number, keeps_none, pages);
        self.seen = seen_after(before, number, self.pusher.refused());
    }

    // Makes a visit of a state of which so many pages are to be copied, but for what is told of those that were seen.
    fn make_unseen(&mut self, state: &mut State, number: u64, keeps_none: bool, pages: usize)
        requires seen { self.old.seen ≡ None }
        requires made { is_passed_over self.old ≡ false }
        requires keeps { keeps_none ≡ (not (is_guessing self.old.guessing) || is_needless number self.old) }
        requires none { keeps_none ≡ true → pages ≡ 0 }
        requires pages { pages < 2 ^ 23 }
        requires number { number ≤ 2 ^ 40 }
        requires full { full_of self.old.pusher < 2 ^ 62 }
        ensures visits { LearnsOf number pages state.old self.old self.new }
        ensures stays { state.new ≡ state.old }
    {
        self.budget.charge(pages);
        let filled = self.pusher.has_filled();
        if !self.guesses() {
            self.visits.forget();
            self.give_up(number);
        } else if keeps_none {
            self.leave(number);
        } else if filled && !self.visits.has_last() {
            self.begin_row(state, number);
        } else if self.keep(state) {
            self.push_due(number, filled);
        }
    }

    // Where two states are kept, pushes the jobs of a visit that are offered, and wakes a worker for each.
    fn push_due(&mut self, number: u64, filled: bool)
        requires seen { self.old.seen ≡ None }
        requires filled { filled ≡ is_filled self.old.pusher.giver }
        requires number { number ≤ 2 ^ 40 }
        requires full { full_of self.old.pusher < 2 ^ 62 }
        ensures pushes { Pushes (offers_at number self.old) (due_by number self.old.prev self.old.last self.old)
            self.old.pusher self.new.pusher }
        ensures rest { self.new ≡ record self.old {
          issued = issued_after self.old.guessing self.old.issued number self.old.prev;
          pusher = self.new.pusher;
        } }
    {
        let share = self.share(filled);
        self.visits.plan(number);
        let Some((prev, last)) = self.visits.pair() else {
            return;
        };
        let before = self.pusher.pushed();
        self.pusher
            .offer_visit(share, prev, last, self.visits.jobs(), number);
        self.wake_for(before, self.pusher.pushed());
    }
}

// How many pages a visit copies: none where it keeps no state.
fn copied(state: &State, keeps_none: bool) -> usize
    ensures none { keeps_none ≡ true → result ≡ 0 }
    ensures most { result ≤ length_of state.now.shape / 1024 + 1 }
{
    if keeps_none { 0 } else { state.changed_pages() }
}

/// Up to which visit all were guessed after one more, where so often memory was wanting.
fn seen_after(before: Option<u64>, number: u64, refused: u64) -> Option<u64>
    requires { number ≤ 2 ^ 40 }
    ensures { result ≡ seen_by number refused before }
{
    match before {
        Some(before) if refused == 0 && before.saturating_add(1) == number => Some(number),
        _ => None,
    }
}

/// It passes all on to its finder, which is asked for no step at a visit that was passed over.
impl<'a, F: Finder, G, R> Finder for Live<'a, F, G, R> {
    ghost aid = { λ l. told_over (F.aid l.finder) l };

    #[inline(always)]
    fn jump(&mut self, state: &mut State, left: u64) -> Option<u64>
        requires left { left ≤ 2 ^ 40 }
        requires asked { (F.aid self.old.finder).jumps.asked < 2 ^ 62 }
        requires given { (F.aid self.old.finder).jumps.given < 2 ^ 62 }
        ensures rest { self.new ≡ record self.old {
          finder = self.new.finder;
          budget = after_look_up left result self.old.budget;
        } }
        ensures passed { self.old.budget.passing ≡ true → result ≡ None }
        ensures made { self.old.budget.passing ≡ false
            → (m : Serial) → (F.aid self.old.finder).machine ≡ Some m → result ≡ serial_reply m state.old left }
        ensures jump { IsJump result left state.old state.new }
        ensures jumps { (F.aid self.new.finder).jumps ≡ jumps_after (F.aid self.old.finder).jumps result }
        ensures replies { Tells (result ∷ []) (F.aid self.old.finder).replies (F.aid self.new.finder).replies }
        ensures plan { plan_of self.new ≡ plan_of self.old }
        ensures machine { Unit {0} }
        ensures longest { (m : Serial) → None ≡ Some m → result ≡ serial_reply m state.old left }
    {
        if self.budget.is_passing() {
            let none = self.finder.jump(state, 0);
            self.budget.look_up(left, none);
            return none;
        }
        let found = self.finder.jump(state, left);
        self.budget.look_up(left, found);
        found
    }

    fn asked(&self) -> u64 {
        self.finder.asked()
    }

    fn given(&self) -> u64 {
        self.finder.given()
    }

    fn hits(&self) -> u64 {
        self.finder.hits()
    }
}

impl<'a, F: Finder, G: Gate, R: Wait> Helper for Live<'a, F, G, R> {
    /// Pushes the jobs that are due, and wakes a worker for each. Once the queue had been filled up it pushes the workers'
    /// share of them; the others count as full. A visit costs a copy of what changed in the state since the last one, and
    /// two owners more of a copy for each job. The budget is charged for each page of that copy.
    ///
    /// A visit at which none is offered keeps no state, where guesses go by the last state alone. It copies no page.
    ///
    /// A visit that is passed over does none of this: one guess of each kind counts as not offered. So it does, once the
    /// queue had been filled up, at a visit that has no state before it, and only keeps its own. At the end of a visit the
    /// gate is passed at `Visit`.
    fn visit(&mut self, state: &mut State, number: u64)
        requires number { number ≤ 2 ^ 40 }
        requires made { (plan_of self.old).made < 2 ^ 62 }
        requires full { (plan_of self.old).full < 2 ^ 62 }
        ensures visits { LearnsOfWritten number state.old self.old self.new }
        ensures stays { state.new ≡ state.old }
        ensures jumps { (F.aid self.new.finder).jumps ≡ (F.aid self.old.finder).jumps }
        ensures replies { (F.aid self.new.finder).replies ≡ (F.aid self.old.finder).replies }
        ensures plan { Plans 1 (plan_of self.old) (plan_of self.new) }
        ensures seen { Sees number (plan_of self.old) (plan_of self.new) }
        ensures machine { VisitsMachine number state.old
            (told_over (F.aid self.old.finder) self.old) (told_over (F.aid self.new.finder) self.new) }
    {
        // That it is a state bounds how many pages there are.
        let _ = state.shape();
        let gate = self.gate;
        self.learn_of(state, number);
        gate.pass(Point::Visit, number);
    }

    fn made(&self) -> u64 {
        self.pusher.pushed()
    }

    fn refused(&self) -> u64 {
        self.pusher.refused()
    }

    fn full(&self) -> u64 {
        self.pusher.full()
    }
}
