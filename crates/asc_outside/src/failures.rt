ghost use Rattle.std.specs.Prelude.{◌≡◌, is_err};
ghost use Rattle.asc_outside.specs.Outside.{HasCause};
ghost use Rattle.asc_outside.specs.Failures.{failures_of, fails_next, after_failure, after_call};

use crate::Failed;
use std::marker::Model;

/// Which calls of an object fail, and how often one did.
///
/// The numbers of the calls begin at 1. The counts stop at 2^64 - 1.
#[derive(Drop)]
pub(crate) struct Failures {
    fails: Vec<u64>,
    calls: u64,
    faults: u64,
}

impl Model for Failures {
    ghost use Rattle.asc_outside.specs.Failures as model;

    ghost Value = { model.Failures };

    ghost view = { λ f. record { fails = f.fails.items; calls = f.calls; faults = f.faults } };
}

impl Failures {
    /// The calls whose numbers these are fail.
    pub(crate) fn new(fails: Vec<u64>) -> Failures
        ensures { result ≡ failures_of fails.items }
    {
        Failures {
            fails,
            calls: 0,
            faults: 0,
        }
    }

    /// Counts a call. The error is that the call is one that fails, and it is counted.
    pub(crate) fn call(&mut self) -> Result<(), Failed>
        ensures fails { is_err result ≡ fails_next self.old }
        ensures after { self.new ≡ after_call self.old }
        ensures cause { HasCause self.old.faults self.new.faults result }
    {
        self.calls = self.calls.saturating_add(1);
        if self.fails.contains(&self.calls) {
            return Err(self.fail());
        }
        Ok(())
    }

    /// Counts a failure of a call that was counted.
    pub(crate) fn fail(&mut self) -> Failed
        ensures { self.new ≡ after_failure self.old }
    {
        self.faults = self.faults.saturating_add(1);
        Failed
    }
}
