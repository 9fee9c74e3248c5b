//! The first steps of a program, of which the address is chosen at which it is visited.
ghost use Rattle.std.specs.Prelude.{◌≡◌, ◌≤◌, ◌^◌, ℕ, [], Ok, None, IfOk, IfErr, IfSome, IsNone, vec_len, vec_capacity};

use crate::process::Process;
use crate::recognised::Recognised;
use crate::walk::{Ended, Settings};
use asc_calls::Devices;
use asc_guess::choose;
use asc_outside::{Sink, Source, Steps};
use std::sync::ledger::Ledger;

impl Process {
    ghost use Rattle.asc_calls.specs.World.{BlamesOnly, outside_of, world_in};
    ghost use Rattle.asc_guess.specs.Choice.{CountsRise};
    ghost use Rattle.asc_run.specs.declared.recognised.Recognised.TheVariants.{Chosen};
    ghost use Rattle.asc_run.specs.Execution.{device_of};
    ghost use Rattle.asc_run.specs.Turn.{device_of_turn};
    ghost use Rattle.asc_run.specs.Sought.{HasSeeker};
    ghost use Rattle.asc_run.specs.Visits.{HasBounds, visit_rule, noted_counts, profile_of};
    ghost use Rattle.asc_find.specs.Finder.{Aid};
    ghost use Rattle.asc_run.specs.Way.{ComesUnvisited, Reaches};
    ghost use Rattle.asc_run.specs.Walk.{HasNotBegun, GoesHelped};

    /// The address at which a program that has not begun is visited from where it then stands. Where one is to be chosen,
    /// the first steps are taken, and the error is how the program ended in them.
    pub(crate) fn recognise<I: Source, O: Sink, E: Sink, L: Ledger>(
        &mut self,
        settings: Settings,
        notes: &mut Vec<(u32, u64)>,
        devices: &mut Devices<I, O, E>,
        steps: &mut Steps<L>,
    ) -> Result<Option<u32>, Ended>
        requires bounds { HasBounds settings.recognised }
        requires sought { HasSeeker settings.recognised None }
        requires start { HasNotBegun self.old.count self.old.calls }
        requires none_noted { notes.old.items ≡ [] }
        requires room { noted_counts settings.recognised ≤ vec_capacity notes.old }
        ensures going { IfOk result (λ address. ComesUnvisited settings.limit (visit_rule settings.recognised) address
            (world_in self.old.state self.old.calls (outside_of devices.old steps.old))
            (world_in self.new.state self.new.calls (outside_of devices.new steps.new)) self.new.count) }
        ensures ended { IfErr result (λ ended. (a : Aid) → GoesHelped settings.limit (visit_rule settings.recognised)
            (world_in self.old.state self.old.calls (outside_of devices.old steps.old))
            (world_in self.new.state self.new.calls (outside_of devices.new steps.new)) a a self.new.count 0 ended) }
        ensures nowhere { settings.recognised ≡ Recognised.Nowhere → result ≡ Ok None }
        ensures kept { vec_capacity notes.new ≡ vec_capacity notes.old }
        ensures shape { IfOk result (λ _. self.new.state.shape ≡ self.old.state.shape) }
        ensures ended_shape { IfErr result (λ ended. device_of ended ≡ None → self.new.state.shape ≡ self.old.state.shape) }
        ensures limit { self.new.count ≤ settings.limit }
        ensures sound { IfOk result (λ _. devices.new.told.faults ≡ devices.old.told.faults) }
        ensures faults { IfErr result (λ ended. BlamesOnly (device_of ended) devices.old.told.faults
            devices.new.told.faults) }
    {
        match settings.recognised {
            Recognised::Nowhere => Ok(None),
            Recognised::At(address) => Ok(Some(address)),
            Recognised::Chosen { profile, least } => {
                let stop = settings.limit.min(u64::from(profile));
                match self.note(stop, notes, devices, steps) {
                    Some(ended) => Err(ended),
                    None => Ok(choose(notes.as_mut_slice(), u64::from(least))),
                }
            }
            Recognised::Sought(_) => unreachable!(),
        }
    }

    /// Takes the first steps of a program up to a count, and notes the address at which it stands before each, with the
    /// count. It answers how the program ended, if it did. No allocator is handed in.
    fn note<I: Source, O: Sink, E: Sink, L: Ledger>(
        &mut self,
        stop: u64,
        notes: &mut Vec<(u32, u64)>,
        devices: &mut Devices<I, O, E>,
        steps: &mut Steps<L>,
    ) -> Option<Ended>
        requires stop { stop ≤ 2 ^ 16 }
        requires start { HasNotBegun self.old.count self.old.calls }
        requires none_noted { notes.old.items ≡ [] }
        requires room { stop ≤ vec_capacity notes.old }
        ensures stop { IsNone result → self.new.count ≡ stop }
        ensures going { IsNone result → Reaches (λ run. notes.new.items ≡ profile_of run self.new.count)
            self.old.calls.low self.old.calls.high self.old.state
            (world_in self.old.state self.old.calls (outside_of devices.old steps.old))
            (world_in self.new.state self.new.calls (outside_of devices.new steps.new)) self.new.count 0 }
        ensures ended { IfSome result (λ ended. (limit profile least : ℕ) (a : Aid) → stop ≤ limit → stop ≤ profile
            → GoesHelped limit (visit_rule (Chosen profile least))
            (world_in self.old.state self.old.calls (outside_of devices.old steps.old))
            (world_in self.new.state self.new.calls (outside_of devices.new steps.new)) a a self.new.count 0 ended) }
        ensures rise { IsNone result → CountsRise notes.new.items }
        ensures few { vec_len notes.new ≤ stop }
        ensures shape { device_of_turn result ≡ None → self.new.state.shape ≡ self.old.state.shape }
        ensures kept { vec_capacity notes.new ≡ vec_capacity notes.old }
        ensures limit { self.new.count ≤ stop }
        ensures faults { BlamesOnly (device_of_turn result) devices.old.told.faults devices.new.told.faults }
    {
        while self.count < stop {
            let noted = self.count;
            notes.push_reserved((self.state.pc(), noted));
            let stopped = self.go_on(None, 1, steps);
            if self.count == noted {
                if let Some(ended) = self.stop(stopped, devices, steps) {
                    return Some(ended);
                }
            }
        }
        None
    }
}
