//! A program that is visited at an address which is sought while it goes on.
ghost use Rattle.std.specs.Prelude.{◌≡◌, ◌≢◌, ◌≤◌, ◌<◌, ◌+◌, ◌-◌, ◌^◌, ℕ, Some, None, true, false};
ghost use Rattle.asc_model.specs.Plain.{plain};
ghost use Rattle.asc_model.specs.Step.{Went, next};
ghost use Rattle.asc_step.specs.Step.{stepped_of};
ghost use Rattle.asc_calls.specs.GuestCall.{Device};
ghost use Rattle.asc_calls.specs.World.{BlamesOnly, outside_of, world_in};
ghost use Rattle.asc_run.specs.Sought.{NotesAlong, learning, noting, pc_in};
ghost use Rattle.asc_run.specs.Turn.{Turns, TurnFails, device_of_turn};
ghost use Rattle.asc_run.specs.VisitedBy.{MakesVisits};
ghost use Rattle.asc_run.specs.Visits.{Passes};
ghost use Rattle.asc_seek.specs.Heads.{AreEarlier, led_back};
ghost use Rattle.asc_seek.specs.Seek.{IsBehind, end_in, is_over, new_seek, reply_steps};
ghost use Rattle.asc_seek.specs.declared.seeker.Phase.TheVariants.{Profile};

use crate::process::Process;
use crate::visited::Visited;
use crate::walk::Ended;
use asc_calls::Devices;
use asc_find::Finder;
use asc_outside::{Sink, Source, Steps};
use asc_seek::Seeker;
use asc_shape::State;
use asc_step::{Stepped, step_down};
use std::sync::ledger::Ledger;

impl Visited {
    ghost use Rattle.asc_run.specs.declared.recognised.Recognised.TheVariants.{Sought};
    ghost use Rattle.asc_run.specs.Execution.{device_of};
    ghost use Rattle.asc_run.specs.Visits.{visit_rule};
    ghost use Rattle.asc_run.specs.Helped.{HasRoom};
    ghost use Rattle.asc_run.specs.Guessed.{SeesAll};
    ghost use Rattle.asc_run.specs.Walk.{jumps, GoesHelped, HasNotBegun, IsRaisedBy};

    /// Runs a program that has not begun until it ends, a device fails, or `limit` steps are done or jumped over. Where it
    /// stands at the address that the search watches, the helper is visited by `visit`, and asked for a jump; then the
    /// search learns of that visit.
    pub(crate) fn seek<
        H: Finder,
        V: Fn(&mut H, &mut State, u64),
        I: Source,
        O: Sink,
        E: Sink,
        L: Ledger,
    >(
        &mut self,
        limit: u64,
        seeker: &mut Seeker,
        helper: &mut H,
        visit: &V,
        devices: &mut Devices<I, O, E>,
        steps: &mut Steps<L>,
    ) -> Ended
        requires visit { MakesVisits H.aid V.Fn visit.now }
        requires limit { limit ≤ 2 ^ 40 }
        requires start { HasNotBegun self.old.process.count self.old.process.calls }
        requires new { seeker.old ≡ new_seek seeker.old.seeking }
        requires none_told { jumps self.old.asked self.old.skipped self.old.hits ≡ jumps 0 0 0 }
        requires room { HasRoom (2 ^ 61) (H.aid helper.old) }
        ensures run { GoesHelped limit (visit_rule (Sought seeker.old.seeking))
            (world_in self.old.process.state self.old.process.calls (outside_of devices.old steps.old))
            (world_in self.new.process.state self.new.process.calls (outside_of devices.new steps.new))
            (H.aid helper.old) (H.aid helper.new) self.new.process.count self.new.skipped result }
        ensures helper { IsRaisedBy (jumps self.new.asked self.new.skipped self.new.hits)
            (H.aid helper.old).jumps (H.aid helper.new).jumps }
        ensures seen { SeesAll self.new.asked (H.aid helper.old).plan (H.aid helper.new).plan }
        ensures shape { device_of result ≡ None → self.new.process.state.shape ≡ self.old.process.state.shape }
        ensures limit { self.new.process.count ≤ limit }
        ensures skipped { self.new.skipped ≤ self.new.process.count }
        ensures faults { BlamesOnly (device_of result) devices.old.told.faults devices.new.told.faults }
        ensures seeking { seeker.new.seeking ≡ seeker.old.seeking }
    {
        loop {
            let at = self.process.count;
            if at == limit {
                return Ended::Limit;
            }
            seeker.advance(at);
            let (pc, asked) = (seeker.watched(), self.asked);
            let reply = self.land(pc, helper, visit, limit - at);
            let most = learn(seeker, asked < self.asked, at, reply, limit);
            if let Some(n) = reply {
                self.process.count += n;
                self.skipped += n;
                self.hits += 1;
                continue;
            }
            let stopped = self.process.go_noting(seeker, pc, most, steps);
            if self.process.count == at {
                if let Some(ended) = self.process.stop_noting(seeker, stopped, devices, steps) {
                    return ended;
                }
            }
        }
    }
}

/// Has a search learn of a visit at a count, if there was one. It answers how many plain steps may be taken from there
/// where none was jumped over: one behind a visit, and else no more than up to the end of its phase.
fn learn(seeker: &mut Seeker, is_visit: bool, at: u64, reply: Option<u64>, limit: u64) -> u64
    requires going { is_over at seeker.old ≡ false }
    requires behind { IsBehind at seeker.old }
    requires reply { reply_steps reply ≤ 2 ^ 40 }
    requires limit { at < limit }
    requires most { limit ≤ 2 ^ 40 }
    ensures seek { seeker.new ≡ learning is_visit at reply seeker.old }
    ensures some { 0 < result }
    ensures limit { at + result ≤ limit }
    ensures visit { is_visit ≡ true → result ≡ 1 }
    ensures phase { is_visit ≡ false → at + result ≤ end_in seeker.old seeker.old.phase }
    ensures behind { (count : ℕ) → at + reply_steps reply ≤ count → IsBehind count seeker.new }
{
    if is_visit {
        seeker.visit(at, reply);
        return 1;
    }
    seeker.end().min(limit) - at
}

impl Process {
    /// Takes plain steps as `go_on` does. While a search notes heads, it takes them up to the first that leads back, and
    /// has that noted.
    fn go_noting<L: Ledger>(
        &mut self,
        seeker: &mut Seeker,
        pc: Option<u32>,
        most: u64,
        steps: &mut Steps<L>,
    ) -> Stepped
        requires most { self.old.count + most ≤ 2 ^ 40 }
        requires earlier { seeker.old.phase ≡ Profile → AreEarlier (self.old.count + 1) seeker.old.table }
        ensures goes { plain (self.new.count - self.old.count) self.old.state ≡ Went self.new.state }
        ensures passes { seeker.old.phase ≢ Profile → Passes pc self.old.state (self.new.count - self.old.count) }
        ensures noted { seeker.old.phase ≡ Profile
            → NotesAlong self.old.state (self.new.count - self.old.count) self.new.count self.new.state seeker.old seeker.new }
        ensures other { seeker.old.phase ≢ Profile → seeker.new ≡ seeker.old }
        ensures earlier { seeker.new.phase ≡ Profile → AreEarlier (self.new.count + 1) seeker.new.table }
        ensures behind { (count : ℕ) → IsBehind count seeker.old → IsBehind count seeker.new }
        ensures seeking { seeker.new.seeking ≡ seeker.old.seeking }
        ensures grows { self.old.count ≤ self.new.count }
        ensures most { self.new.count ≤ self.old.count + most }
        ensures counter { steps.new ≡ steps.old + (self.new.count - self.old.count) }
        ensures some { result ≡ Stepped.Went → 0 < most → self.old.count < self.new.count }
        ensures ends { result ≢ Stepped.Went → result ≡ stepped_of (next self.new.state) }
        ensures kept { self.new ≡ record self.old { state = self.new.state; count = self.new.count } }
    {
        if !seeker.is_noting() {
            return self.go_on(pc, most, steps);
        }
        let (done, down, stepped) = step_down(&mut self.state, most, steps);
        self.count += done;
        if down {
            seeker.note(self.state.pc(), self.count);
        }
        stepped
    }

    /// What an attempt at a step that did not go on comes to, as `stop` says. Where a guest call leads back, a search that
    /// notes heads has that noted.
    fn stop_noting<I: Source, O: Sink, E: Sink, L: Ledger>(
        &mut self,
        seeker: &mut Seeker,
        stopped: Stepped,
        devices: &mut Devices<I, O, E>,
        steps: &mut Steps<L>,
    ) -> Option<Ended>
        requires count { self.old.count < 2 ^ 40 }
        requires stopped { stopped ≢ Stepped.Went }
        requires stands { stopped ≡ stepped_of (next self.old.state) }
        requires earlier { seeker.old.phase ≡ Profile → AreEarlier (self.old.count + 1) seeker.old.table }
        ensures turn { device_of_turn result ≡ None → Turns
            (world_in self.old.state self.old.calls (outside_of devices.old steps.old))
            (world_in self.new.state self.new.calls (outside_of devices.new steps.new))
            self.old.count self.new.count result }
        ensures fails { (device : Device) → device_of_turn result ≡ Some device → TurnFails
            (world_in self.old.state self.old.calls (outside_of devices.old steps.old))
            (world_in self.new.state self.new.calls (outside_of devices.new steps.new)) device }
        ensures count { (device : Device) → device_of_turn result ≡ Some device → self.new.count ≡ self.old.count }
        ensures grows { self.old.count ≤ self.new.count }
        ensures most { self.new.count ≤ self.old.count + 1 }
        ensures faults { BlamesOnly (device_of_turn result) devices.old.told.faults devices.new.told.faults }
        ensures noted { result ≡ None → seeker.old.phase ≡ Profile
            → seeker.new ≡ noting self.new.count (led_back (pc_in self.old.state) (pc_in self.new.state)) seeker.old }
        ensures other { seeker.old.phase ≢ Profile → seeker.new ≡ seeker.old }
        ensures earlier { result ≡ None → seeker.new.phase ≡ Profile → AreEarlier (self.new.count + 1) seeker.new.table }
        ensures behind { (count : ℕ) → IsBehind count seeker.old → IsBehind count seeker.new }
        ensures seeking { seeker.new.seeking ≡ seeker.old.seeking }
    {
        let from = self.state.pc();
        let ended = self.stop(stopped, devices, steps);
        if ended.is_none() && seeker.is_noting() && self.state.pc() < from {
            seeker.note(self.state.pc(), self.count);
        }
        ended
    }
}
