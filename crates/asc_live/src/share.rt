ghost use Rattle.std.specs.Prelude.{◌≡◌, ◌+◌, ◌-◌, ◌<◌, ◌≤◌, ◌^◌, not, true, ◌||◌};
ghost use Rattle.std.specs.List.{list_any, range_with_len};
ghost use Rattle.asc_live.specs.Due.{is_for_workers};

/// Which guesses are offered to the workers. It changes no answer of a run.
///
/// A walk goes a lap between two visits, or it jumps and is at the next one at once. Were the guesses of all visits
/// offered, the walk would jump over many visits at once, and then go over as many. So once the queue had been filled up,
/// one visit of each `workers + 1` in a row is left to the walk.
#[derive(Clone, Copy)]
pub(crate) struct Share {
    /// How many workers there are.
    pub workers: u64,
    /// Whether the queue had been filled up.
    pub filled: bool,
}

impl Share {
    /// Whether the guesses of the visit of this number are offered.
    pub(crate) fn offers(self, target: u64) -> bool
        requires { self.workers + 1 < 2 ^ 64 }
        ensures { result ≡ (not self.filled || is_for_workers self.workers target) }
    {
        !self.filled || 0 < self.workers && target % (self.workers + 1) != 1
    }

    /// Whether none of the visits from one on up to another one is offered, once the queue had been filled up.
    pub(crate) fn offers_none(self, start: u64, end: u64) -> bool
        requires filled { self.filled ≡ true }
        requires workers { self.workers + 1 < 2 ^ 64 }
        requires rises { start ≤ end }
        ensures { result ≡ not (list_any (is_for_workers self.workers) (range_with_len start (end - start))) }
    {
        for target in start..end {
            if self.offers(target) {
                return false;
            }
        }
        true
    }
}
