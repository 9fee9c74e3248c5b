//! What a walk goes over.
ghost use Rattle.std.specs.Prelude.{◌^◌, IsNone};
ghost use Rattle.asc_calls.specs.World.{Told, outside_with};
ghost use Rattle.asc_run.specs.Helped.{HasRoom};
ghost use Rattle.asc_live.specs.Crew.{Walks};

use asc_calls::Devices;
use asc_find::Helper;
use asc_outside::{Sink, Source, Steps};
use asc_run::{Ended, Walk};
use std::sync::ledger::Ledger;

/// Devices, whatever their types: a closure can hold a `&mut` to one type parameter, and none to a struct of three.
pub(crate) trait Ground<H: Helper, L: Ledger> {
    /// What they tell.
    ghost told: { Self → Told };

    /// Runs a walk that has not begun to its end over them, with a helper.
    fn go(&mut self, walk: &mut Walk, helper: &mut H, steps: &mut Steps<L>) -> Ended
        requires new { IsNone walk.old.ended }
        requires room { HasRoom (2 ^ 61) (H.aid helper.old) }
        ensures { Walks walk.old walk.new (outside_with (told self.old) steps.old)
            (outside_with (told self.new) steps.new) (H.aid helper.old) (H.aid helper.new) result };
}

impl<I: Source, O: Sink, E: Sink, H: Helper, L: Ledger> Ground<H, L> for Devices<I, O, E> {
    ghost told = { λ d. d.told };

    fn go(&mut self, walk: &mut Walk, helper: &mut H, steps: &mut Steps<L>) -> Ended {
        walk.go(helper, self, steps)
    }
}
