//! A program that is run plainly to visits of an address.
ghost use Rattle.std.specs.Prelude.{◌≡◌, ◌≤◌, ◌<◌, ◌+◌, ◌^◌, ℕ, List, true, false, Some, None, IsNone, IfSome, if◌then◌else◌};
ghost use Rattle.asc_model.specs.State.{State};
ghost use Rattle.asc_calls.specs.World.{World, BlamesOnly, outside_of, world_in};
ghost use Rattle.asc_run.specs.Turn.{device_of_turn};
ghost use Rattle.asc_run.specs.Visits.{is_at};
ghost use Rattle.asc_inspect.specs.Visited.{Comes, EndsBefore};
ghost use Rattle.asc_inspect.specs.Standing.{ComesFrom, IsOnWay};

use asc_calls::Devices;
use asc_outside::{Sink, Source, Steps};
use asc_run::{Ended, Process};
use std::sync::ledger::Ledger;

/// A program on its way to a visit of an address.
#[derive(Drop)]
pub(crate) struct Visitor {
    pub(crate) process: Process,
    /// How often it stood at the address, but for the visit to which it came last.
    pub(crate) visits: u64,
}

impl Visitor {
    /// Runs a program that has not begun until it stands at `pc` for the `visit`th time. It answers how it ended before
    /// that, if it did: by itself, since a device failed, or at its limit.
    pub(crate) fn come<I: Source, O: Sink, E: Sink, L: Ledger>(
        &mut self,
        pc: u32,
        visit: u64,
        limit: u64,
        devices: &mut Devices<I, O, E>,
        steps: &mut Steps<L>,
    ) -> Option<Ended>
        requires limit { limit ≤ 2 ^ 40 }
        requires count { self.old.process.count ≡ 0 }
        requires visits { self.old.visits ≡ 0 }
        requires visit { 1 ≤ visit }
        requires brk { self.old.process.calls.brk ≡ self.old.process.calls.low }
        requires going { self.old.process.calls.ended ≡ false }
        ensures there { IsNone result → Comes pc visit
            (world_in self.old.process.state self.old.process.calls (outside_of devices.old steps.old))
            (world_in self.new.process.state self.new.process.calls (outside_of devices.new steps.new)) self.new.process.count }
        ensures ended { IfSome result (λ ended. EndsBefore limit pc self.new.visits
            (world_in self.old.process.state self.old.process.calls (outside_of devices.old steps.old))
            (world_in self.new.process.state self.new.process.calls (outside_of devices.new steps.new)) self.new.process.count ended) }
        ensures before { IfSome result (λ _. self.new.visits < visit) }
        ensures limit { self.new.process.count ≤ limit }
        ensures below { IsNone result → self.new.process.count < limit }
        ensures faults { BlamesOnly (device_of_turn result) devices.old.told.faults devices.new.told.faults }
    {
        self.come_on(pc, visit, limit, devices, steps)
    }

    /// Runs a program on until it stands at `pc` for the `visit`th time, as `come` does from its start. It goes on from a
    /// visit to which it came, or has not begun.
    pub(crate) fn come_on<I: Source, O: Sink, E: Sink, L: Ledger>(
        &mut self,
        pc: u32,
        visit: u64,
        limit: u64,
        devices: &mut Devices<I, O, E>,
        steps: &mut Steps<L>,
    ) -> Option<Ended>
        requires limit { limit ≤ 2 ^ 40 }
        requires count { self.old.process.count ≤ limit }
        requires few { self.old.visits ≤ self.old.process.count }
        requires before { self.old.visits < visit }
        // Wherever it began, and whatever was seen at earlier visits.
        ensures there { IsNone result → (start : World) (seen : List (ℕ × State)) → IsOnWay pc self.old.visits seen start
            (world_in self.old.process.state self.old.process.calls (outside_of devices.old steps.old)) self.old.process.count
            → ComesFrom pc visit seen start
            (world_in self.new.process.state self.new.process.calls (outside_of devices.new steps.new)) self.new.process.count }
        ensures ended { IfSome result (λ ended. (start : World) (seen : List (ℕ × State)) → IsOnWay pc self.old.visits seen start
            (world_in self.old.process.state self.old.process.calls (outside_of devices.old steps.old)) self.old.process.count
            → EndsBefore limit pc self.new.visits start
            (world_in self.new.process.state self.new.process.calls (outside_of devices.new steps.new)) self.new.process.count ended) }
        ensures before { self.new.visits < visit }
        ensures last { IsNone result → self.new.visits + 1 ≡ visit }
        ensures few { IsNone result → self.new.visits ≤ self.new.process.count }
        ensures limit { self.new.process.count ≤ limit }
        ensures below { IsNone result → self.new.process.count < limit }
        ensures faults { BlamesOnly (device_of_turn result) devices.old.told.faults devices.new.told.faults }
    {
        loop {
            if self.process.count == limit {
                return Some(Ended::Limit);
            }
            if self.is_there(pc, visit) {
                return None;
            }
            let landed = self.process.count;
            let stopped = self.process.go_on(Some(pc), limit - landed, steps);
            if self.process.count == landed {
                if let Some(ended) = self.process.stop(stopped, devices, steps) {
                    return Some(ended);
                }
            }
        }
    }

    /// Whether the program stands at `pc` for the `visit`th time. An earlier visit is counted.
    fn is_there(&mut self, pc: u32, visit: u64) -> bool
        requires few { self.old.visits + 1 < 2 ^ 64 }
        requires before { self.old.visits < visit }
        ensures is { result ≡ true → is_at (Some pc) self.old.process.state ≡ true }
        ensures last { result ≡ true → self.new.visits + 1 ≡ visit }
        ensures stays { result ≡ true → self.new.visits ≡ self.old.visits }
        ensures counts { result ≡ false → self.new.visits ≡ self.old.visits + (if is_at (Some pc) self.old.process.state then 1 else 0) }
        ensures before { self.new.visits < visit }
        ensures kept { self.new ≡ record self.old { visits = self.new.visits } }
    {
        if self.process.state.pc() != pc {
            return false;
        }
        if self.visits + 1 == visit {
            return true;
        }
        self.visits += 1;
        false
    }
}
