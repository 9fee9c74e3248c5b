ghost use Rattle.std.specs.Prelude.{◌≡◌, ◌≢◌, ℕ, ◌+◌, ◌-◌, ◌<◌, ◌≤◌, ◌^◌, length, slice_index_or, Option, Some, IfSome, IsPermutation, IsSorted};
ghost use Rattle.std.specs.Ordering.{nat_cmp, ordering_then};
ghost use Rattle.asc_guess.specs.Choice.{CountsRise, better_of, chosen_address, is_better};

/// How often an address stands in a profile, and how many steps lie between the first time and the last.
#[derive(Clone, Copy)]
pub(crate) struct Candidate {
    pub(crate) address: u32,
    pub(crate) times: u64,
    pub(crate) distance: u64,
}

/// The address at which a run is best visited, of those that stand in a profile at least `least` times: pairs of an
/// address and a number of steps, which rises from each pair to the next. It is the one whose times lie furthest apart on
/// average; of those the one that stands there most often, and then the lowest. None where no address stands there so
/// often.
///
/// The pairs are put into another order. No allocator is handed in.
pub fn choose(visits: &mut [(u32, u64)], least: u64) -> Option<u32>
    requires rise { CountsRise visits.old }
    requires few { length visits.old ≤ 2 ^ 16 }
    requires least { 2 ≤ least }
    ensures chosen { result ≡ chosen_address visits.old least }
    ensures pairs { IsPermutation visits.old visits.new }
{
    visits.sort_unstable();
    choose_sorted(visits, least)
}

// The choice where the pairs are in order, so that an address has one run of pairs.
fn choose_sorted(visits: &[(u32, u64)], least: u64) -> Option<u32>
    requires order { IsSorted (λ x y. ordering_then (nat_cmp x.0 y.0) (nat_cmp x.1 y.1)) visits.now }
    requires few { length visits.now ≤ 2 ^ 16 }
    requires least { 2 ≤ least }
    ensures { result ≡ chosen_address visits.now least }
{
    let mut best: Option<Candidate> = None;
    let mut from = 0;
    while from < visits.len() {
        let to = run_end(visits, from);
        if (to - from) as u64 >= least {
            best = better_of(best, run_candidate(visits, from, to));
        }
        from = to;
    }
    Some(best?.address)
}

// The end of the run of pairs that have the address of the pair at `from`.
fn run_end(visits: &[(u32, u64)], from: usize) -> usize
    requires within { from < length visits.now }
    requires few { length visits.now ≤ 2 ^ 16 }
    ensures some { from < result }
    ensures end { result ≤ length visits.now }
    ensures run { (k : ℕ) (d : ℕ × ℕ) → from ≤ k → k < result
        → (slice_index_or visits.now k d).0 ≡ (slice_index_or visits.now from d).0 }
    ensures behind { (d : ℕ × ℕ) → result < length visits.now
        → (slice_index_or visits.now result d).0 ≢ (slice_index_or visits.now from d).0 }
{
    let address = visits[from].0;
    for to in from + 1..visits.len() {
        if visits[to].0 != address {
            return to;
        }
    }
    visits.len()
}

// The candidate of a run of pairs.
fn run_candidate(visits: &[(u32, u64)], from: usize, to: usize) -> Candidate
    requires some { from < to }
    requires end { to ≤ length visits.now }
    requires rises { (d : ℕ × ℕ)
        → (slice_index_or visits.now from d).1 ≤ (slice_index_or visits.now (to - 1) d).1 }
    ensures { result ≡ record {
      address = (slice_index_or visits.now from (0, 0)).0;
      times = to - from;
      distance = (slice_index_or visits.now (to - 1) (0, 0)).1 - (slice_index_or visits.now from (0, 0)).1;
    } }
{
    let (address, first) = visits[from];
    Candidate {
        address,
        times: (to - from) as u64,
        distance: visits[to - 1].1 - first,
    }
}

// The better one of two candidates.
fn better_of(best: Option<Candidate>, next: Candidate) -> Option<Candidate>
    requires best { IfSome best (λ c. (2 ≤ c.times) × (c.times ≤ 2 ^ 16)) }
    requires next { (2 ≤ next.times) × (next.times ≤ 2 ^ 16) }
    ensures { result ≡ better_of best next }
{
    match best {
        Some(best) if !is_better(&next, &best) => Some(best),
        _ => Some(next),
    }
}

// Whether it is the better one of both.
fn is_better(this: &Candidate, other: &Candidate) -> bool
    requires this { (2 ≤ this.now.times) × (this.now.times ≤ 2 ^ 16) }
    requires other { (2 ≤ other.now.times) × (other.now.times ≤ 2 ^ 16) }
    ensures { result ≡ is_better this.now other.now }
{
    let here = u128::from(this.distance) * u128::from(other.times - 1);
    let there = u128::from(other.distance) * u128::from(this.times - 1);
    here > there
        || here == there
            && (this.times > other.times
                || this.times == other.times && this.address < other.address)
}
