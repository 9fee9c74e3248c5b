ghost use Rattle.std.specs.Prelude.{◌≡◌, ◌+◌, ◌<◌, ◌≤◌, ◌^◌, [], ◌∷◌, length, nat_lt, true, if◌then◌else◌};
ghost use Rattle.std.specs.Arc.{arc_value};
ghost use Rattle.asc_model.specs.State.{State};
ghost use Rattle.asc_outside.specs.Outside.{one_more};
ghost use Rattle.asc_live.specs.Due.{Pushes, full_of, is_filled, is_offered, jobs_of, new_pusher};
ghost use Rattle.asc_find.specs.Serial.{kinds_of};

use crate::share::Share;
use asc_find::Guessing;
use asc_guess::Kind;
use asc_jobs::{Full, Giver};
use asc_model::MOST_GUESSES;
use asc_shape::Snapshot;
use std::marker::Model;
use std::sync::{Arc, Wait};

/// As many jobs are pushed at most, but for those of one visit. No run reaches it.
const MOST_PUSHED: u64 = 1 << 60;

/// Pushes jobs, and counts those that were not pushed.
#[derive(Drop)]
pub(crate) struct Pusher<'a, R> {
    rt: &'a R,
    giver: Giver,
    // How many guesses found no room, were left to the walk, and were due at visits that were passed over.
    lacked: u64,
    left: u64,
    passed: u64,
    refused: u64,
}

impl<'a, R> Model for Pusher<'a, R> {
    ghost use Rattle.std.specs.Prelude.{◌+◌, ◌<◌, ◌^◌};
    ghost use Rattle.asc_live.specs.Due as model;

    ghost Value = { model.Pusher };

    ghost view = { λ s. record {
      giver = s.giver;
      lacked = s.lacked;
      left = s.left;
      passed = s.passed;
      refused = s.refused;
    } };

    ghost invariant = { λ s. s.lacked + s.left + s.passed < 2 ^ 64 };
}

impl<'a, R> Pusher<'a, R> {
    /// It has pushed nothing yet.
    pub(crate) fn new(rt: &'a R, giver: Giver) -> Pusher<'a, R>
        ensures { result ≡ new_pusher giver }
    {
        Pusher {
            rt,
            giver,
            lacked: 0,
            left: 0,
            passed: 0,
            refused: 0,
        }
    }

    /// The giver of its queue.
    pub(crate) fn into_giver(self) -> Giver
        ensures { result ≡ self.entry.giver }
    {
        let Pusher {
            rt: _,
            giver,
            lacked: _,
            left: _,
            passed: _,
            refused: _,
        } = self;
        giver
    }

    /// How many jobs were pushed.
    pub(crate) fn pushed(&self) -> u64
        ensures { result ≡ length self.now.giver.pushed }
    {
        self.giver.pushed()
    }

    /// How many guesses found no room or were not offered.
    pub(crate) fn full(&self) -> u64
        ensures { result ≡ full_of self.now }
    {
        self.lacked + self.left + self.passed
    }

    /// How often memory was wanting.
    pub(crate) fn refused(&self) -> u64
        ensures { result ≡ self.now.refused }
    {
        self.refused
    }

    /// Whether jobs were pushed, and as many as the queue holds.
    pub(crate) fn has_filled(&self) -> bool
        ensures { result ≡ is_filled self.now.giver }
    {
        let pushed = self.giver.pushed();
        0 < pushed && self.giver.capacity() as u64 <= pushed
    }

    /// Counts these jobs as left to the walk. Once `MOST_PUSHED` were pushed it counts none.
    pub(crate) fn leave(&mut self, jobs: &[(Kind, u32)])
        requires full { full_of self.old < 2 ^ 62 }
        requires few { length jobs.now ≤ MOST_GUESSES }
        ensures { (prev last : State) → self.new ≡ record self.old {
          left = self.old.left
              + length (if nat_lt (length self.old.giver.pushed) (2 ^ 60) then jobs_of prev last jobs.now else []);
        } }
    {
        if self.pushed() < MOST_PUSHED {
            self.left += jobs.len() as u64;
        }
    }

    /// Counts one guess of each kind that is on as due at a visit that is passed over, or that keeps its state alone.
    pub(crate) fn pass_over(&mut self, guessing: Guessing)
        requires { full_of self.old < 2 ^ 63 }
        ensures { self.new ≡ record self.old { passed = self.old.passed + length (kinds_of guessing) } }
    {
        self.passed += u64::from(guessing.last) + u64::from(guessing.stride);
    }

    /// Counts that memory was wanting.
    pub(crate) fn refuse(&mut self)
        ensures { self.new ≡ record self.old { refused = one_more self.old.refused } }
    {
        self.refused = self.refused.saturating_add(1);
    }
}

impl<'a, R: Wait> Pusher<'a, R> {
    /// Pushes those of these jobs that are offered, in their order, by the states of the last two visits. The others it
    /// counts as left to the walk. Once `MOST_PUSHED` were pushed it does neither.
    pub(crate) fn offer_visit(
        &mut self,
        share: Share,
        prev: &Arc<Snapshot>,
        last: &Arc<Snapshot>,
        jobs: &[(Kind, u32)],
        number: u64,
    )
        requires workers { share.workers + 1 < 2 ^ 64 }
        requires filled { share.filled ≡ true → is_filled self.old.giver ≡ true }
        requires full { full_of self.old < 2 ^ 62 }
        requires few { length jobs.now ≤ MOST_GUESSES }
        requires number { number ≤ 2 ^ 40 }
        ensures { Pushes (is_offered share.filled share.workers number)
            (if nat_lt (length self.old.giver.pushed) (2 ^ 60)
            then jobs_of (arc_value prev.now) (arc_value last.now) jobs.now else []) self.old self.new }
    {
        if MOST_PUSHED <= self.pushed() {
            return;
        }
        for job in jobs {
            let (kind, ahead) = *job;
            if share.offers(number + u64::from(ahead)) {
                self.push(prev, last, ahead, kind);
            } else {
                self.left += 1;
            }
        }
    }

    // Pushes a job.
    fn push(&mut self, prev: &Arc<Snapshot>, last: &Arc<Snapshot>, ahead: u32, kind: Kind)
        requires tickets { length self.old.giver.pushed < 2 ^ 61 }
        requires full { full_of self.old < 2 ^ 63 }
        ensures { Pushes (λ due. true) (record {
          prev = arc_value prev.now;
          last = arc_value last.now;
          ahead = ahead;
          kind = kind;
        } ∷ []) self.old self.new }
    {
        let (Ok(prev), Ok(last)) = (Arc::try_clone(prev), Arc::try_clone(last)) else {
            self.refuse();
            return;
        };
        match self.giver.push(self.rt, prev, last, ahead, kind) {
            Ok(_) => {}
            Err(Full) => self.lacked += 1,
        }
    }
}
