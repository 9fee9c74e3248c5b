//! A program that is visited where it stands at an address.
ghost use Rattle.std.specs.Prelude.{◌≡◌, ◌≤◌, ◌<◌, ◌+◌, ◌^◌, ℕ, Bool, length, [], None, IsNone, true, false};
ghost use Rattle.asc_find.specs.Helper.{Plans, VisitsMachine, Sees};
ghost use Rattle.asc_run.specs.VisitedBy.{MakesVisits};

use crate::process::Process;
use crate::walk::Ended;
use asc_calls::Devices;
use asc_find::Finder;
use asc_outside::{Sink, Source, Steps};
use asc_shape::State;
use std::sync::ledger::Ledger;

/// A program on its way, and how it was visited.
#[derive(Drop)]
pub(crate) struct Visited {
    /// Its count has the steps done and the steps jumped over.
    pub(crate) process: Process,
    /// Steps jumped over.
    pub(crate) skipped: u64,
    /// Visits, at each of which a jump was asked for.
    pub(crate) asked: u64,
    /// Jumps.
    pub(crate) hits: u64,
}

impl Visited {
    ghost use Rattle.asc_calls.specs.World.{World, BlamesOnly, outside_of, world_in};
    ghost use Rattle.asc_traj.specs.Jump.{IsJump};
    ghost use Rattle.asc_run.specs.Execution.{device_of};
    ghost use Rattle.asc_run.specs.Visits.{Course, VisitRule, is_at, with_landing};
    ghost use Rattle.asc_run.specs.Helped.{HasRoom, Helped, Lands};
    ghost use Rattle.asc_run.specs.Guessed.{SeesAll};
    ghost use Rattle.asc_run.specs.Way.{ComesUnvisited};
    ghost use Rattle.asc_run.specs.Walk.{jumps, GoesHelped, IsRaisedBy};

    /// Runs a program until it ends, a device fails, or `limit` steps are done or jumped over. Where it stands at `pc`,
    /// the helper is visited by `visit`, and asked for a jump. Nothing was jumped over before.
    pub(crate) fn run<
        H: Finder,
        V: Fn(&mut H, &mut State, u64),
        I: Source,
        O: Sink,
        E: Sink,
        L: Ledger,
    >(
        &mut self,
        limit: u64,
        pc: Option<u32>,
        helper: &mut H,
        visit: &V,
        devices: &mut Devices<I, O, E>,
        steps: &mut Steps<L>,
    ) -> Ended
        requires visit { MakesVisits H.aid V.Fn visit.now }
        requires limit { limit ≤ 2 ^ 40 }
        requires count { self.old.process.count ≤ limit }
        requires none_told { jumps self.old.asked self.old.skipped self.old.hits ≡ jumps 0 0 0 }
        requires room { HasRoom (2 ^ 61) (H.aid helper.old) }
        ensures run { (rule : Course → VisitRule) (start : World) → ComesUnvisited limit rule pc start
            (world_in self.old.process.state self.old.process.calls (outside_of devices.old steps.old)) self.old.process.count
            → GoesHelped limit rule start
            (world_in self.new.process.state self.new.process.calls (outside_of devices.new steps.new))
            (H.aid helper.old) (H.aid helper.new) self.new.process.count self.new.skipped result }
        ensures helper { IsRaisedBy (jumps self.new.asked self.new.skipped self.new.hits)
            (H.aid helper.old).jumps (H.aid helper.new).jumps }
        ensures seen { SeesAll self.new.asked (H.aid helper.old).plan (H.aid helper.new).plan }
        ensures unset { IsNone pc → helper.new ≡ helper.old }
        ensures shape { device_of result ≡ None → self.new.process.state.shape ≡ self.old.process.state.shape }
        ensures limit { self.new.process.count ≤ limit }
        ensures skipped { self.new.skipped ≤ self.new.process.count }
        ensures faults { BlamesOnly (device_of result) devices.old.told.faults devices.new.told.faults }
    {
        loop {
            if self.process.count == limit {
                return Ended::Limit;
            }
            let landed = self.process.count;
            if let Some(n) = self.land(pc, helper, visit, limit - landed) {
                self.process.count += n;
                self.skipped += n;
                self.hits += 1;
                continue;
            }
            let stopped = self.process.go_on(pc, limit - landed, steps);
            if self.process.count == landed {
                if let Some(ended) = self.process.stop(stopped, devices, steps) {
                    return ended;
                }
            }
        }
    }

    /// Where the program stands at `pc`, tells the helper of its state, and asks for a jump.
    #[inline(always)]
    pub(crate) fn land<H: Finder, V: Fn(&mut H, &mut State, u64)>(
        &mut self,
        pc: Option<u32>,
        helper: &mut H,
        visit: &V,
        left: u64,
    ) -> Option<u64>
        requires visit { MakesVisits H.aid V.Fn visit.now }
        requires left { left ≤ 2 ^ 40 }
        requires number { self.old.asked < 2 ^ 40 }
        requires room { HasRoom (2 ^ 62) (H.aid helper.old) }
        ensures jump { IsJump result left self.old.process.state self.new.process.state }
        ensures kept { self.new ≡ record self.old {
          process = record self.old.process { state = self.new.process.state };
          asked = self.new.asked;
        } }
        ensures passed { is_at pc self.old.process.state ≡ false → result ≡ None }
        ensures unset { IsNone pc → helper.new ≡ helper.old }
        ensures number { self.new.asked ≡ self.old.asked
            + length (with_landing (is_at pc self.old.process.state) self.old.process.count result []) }
        ensures helped { Helped (with_landing (is_at pc self.old.process.state) self.old.process.count result [])
            (H.aid helper.old) (H.aid helper.new) }
        ensures seen { is_at pc self.old.process.state ≡ true
            → Sees (self.old.asked + 1) (H.aid helper.old).plan (H.aid helper.new).plan }
        ensures machine { Lands (is_at pc self.old.process.state) self.old.asked self.old.process.state left result
            (H.aid helper.old) (H.aid helper.new) }
    {
        match pc {
            Some(pc) if self.process.state.pc() == pc => {
                self.asked += 1;
                visit_by(helper, visit, &mut self.process.state, self.asked);
                helper.jump(&mut self.process.state, left)
            }
            _ => None,
        }
    }
}

/// Has a function tell a helper of the state at a visit, which is the walk's `number`th.
#[inline(always)]
fn visit_by<H: Finder, V: Fn(&mut H, &mut State, u64)>(
    helper: &mut H,
    visit: &V,
    state: &mut State,
    number: u64,
)
    requires visit { MakesVisits H.aid V.Fn visit.now }
    requires number { number ≤ 2 ^ 40 }
    requires made { (H.aid helper.old).plan.made < 2 ^ 62 }
    requires full { (H.aid helper.old).plan.full < 2 ^ 62 }
    ensures jumps { (H.aid helper.new).jumps ≡ (H.aid helper.old).jumps }
    ensures replies { (H.aid helper.new).replies ≡ (H.aid helper.old).replies }
    ensures plan { Plans 1 (H.aid helper.old).plan (H.aid helper.new).plan }
    ensures seen { Sees number (H.aid helper.old).plan (H.aid helper.new).plan }
    ensures stays { state.new ≡ state.old }
    ensures machine { VisitsMachine number state.old (H.aid helper.old) (H.aid helper.new) }
{
    visit(helper, state, number);
}
