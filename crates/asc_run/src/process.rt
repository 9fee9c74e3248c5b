ghost use Rattle.std.specs.Prelude.{◌≡◌, ◌≢◌, ◌≤◌, ◌<◌, ◌+◌, ◌-◌, ◌^◌, Some, None, false, IfOk};

use crate::walk::Ended;
use asc_calls::{Calls, Devices, Served};
use asc_elf::Image;
use asc_outside::{Memory, Sink, Source, Steps};
use asc_shape::State;
use asc_step::{Stepped, step_many, step_until};
use std::alloc::Global;
use std::sync::ledger::Ledger;

/// A program on its way.
#[derive(Drop)]
pub struct Process {
    /// The state in which it is.
    pub state: State,
    /// What its guest calls need to know.
    pub calls: Calls,
    /// How many steps it has come.
    pub count: u64,
}

impl Process {
    ghost use Rattle.asc_model.specs.Plain.{plain};
    ghost use Rattle.asc_model.specs.Step.{Went, Call, next};
    ghost use Rattle.asc_step.specs.Step.{stepped_of};
    ghost use Rattle.asc_elf.specs.Image.{high_of};
    ghost use Rattle.asc_calls.specs.GuestCall.{Device};
    ghost use Rattle.asc_calls.specs.World.{BlamesOnly, outside_of, world_in};
    ghost use Rattle.asc_run.specs.Turn.{Turns, TurnFails, device_of_turn};
    ghost use Rattle.asc_run.specs.Visits.{Passes};

    /// The program of an image, which has not begun. It takes the memory of one state.
    pub fn new(alloc: Global, image: &Image<'_>) -> Result<Process, Memory>
        ensures state { IfOk result (λ process. process.state ≡ image.now.start) }
        ensures calls { IfOk result (λ process. process.calls
            ≡ record { low = image.now.low; high = high_of image.now; brk = image.now.low; ended = false }) }
        ensures count { IfOk result (λ process. process.count ≡ 0) }
    {
        let mut state = State::new(alloc, image.shape())?;
        image.put(&mut state);
        Ok(Process {
            state,
            calls: Calls::new(image.low(), image.high()),
            count: 0,
        })
    }

    /// Begins anew as the program of an image of the same shape. It takes no memory.
    pub fn again(&mut self, image: &Image<'_>)
        requires { image.now.start.shape ≡ self.old.state.shape }
        ensures state { self.new.state ≡ image.now.start }
        ensures calls { self.new.calls
            ≡ record { low = image.now.low; high = high_of image.now; brk = image.now.low; ended = false } }
        ensures count { self.new.count ≡ 0 }
    {
        image.put(&mut self.state);
        self.calls = Calls::new(image.low(), image.high());
        self.count = 0;
    }

    /// Takes plain steps until so many are done, one leads to `pc`, or the next does not go on, in a loop of their own. It
    /// answers what the last attempt answered.
    pub fn go_on<L: Ledger>(&mut self, pc: Option<u32>, most: u64, steps: &mut Steps<L>) -> Stepped
        requires { self.old.count + most < 2 ^ 64 }
        ensures goes { plain (self.new.count - self.old.count) self.old.state ≡ Went self.new.state }
        ensures passes { Passes pc self.old.state (self.new.count - self.old.count) }
        ensures grows { self.old.count ≤ self.new.count }
        ensures most { self.new.count ≤ self.old.count + most }
        ensures counter { steps.new ≡ steps.old + (self.new.count - self.old.count) }
        ensures some { result ≡ Stepped.Went → 0 < most → self.old.count < self.new.count }
        ensures ends { result ≢ Stepped.Went → result ≡ stepped_of (next self.new.state) }
        ensures kept { self.new ≡ record self.old { state = self.new.state; count = self.new.count } }
    {
        let (done, stepped) = match pc {
            Some(pc) => step_until(&mut self.state, pc, most, steps),
            None => step_many(&mut self.state, most, steps),
        };
        self.count += done;
        stepped
    }

    /// What an attempt at a step that did not go on comes to: the guest call at which the program stands is served, and a
    /// fault ends the run. It answers how the run ended, if it did.
    pub fn stop<I: Source, O: Sink, E: Sink, L: Ledger>(
        &mut self,
        stopped: Stepped,
        devices: &mut Devices<I, O, E>,
        steps: &mut Steps<L>,
    ) -> Option<Ended>
        requires count { self.old.count + 1 < 2 ^ 64 }
        requires stopped { stopped ≢ Stepped.Went }
        requires stands { stopped ≡ stepped_of (next self.old.state) }
        ensures turn { device_of_turn result ≡ None → Turns
            (world_in self.old.state self.old.calls (outside_of devices.old steps.old))
            (world_in self.new.state self.new.calls (outside_of devices.new steps.new))
            self.old.count self.new.count result }
        ensures fails { (device : Device) → device_of_turn result ≡ Some device → TurnFails
            (world_in self.old.state self.old.calls (outside_of devices.old steps.old))
            (world_in self.new.state self.new.calls (outside_of devices.new steps.new)) device }
        ensures count { (device : Device) → device_of_turn result ≡ Some device → self.new.count ≡ self.old.count }
        ensures grows { self.old.count ≤ self.new.count }
        ensures most { self.new.count ≤ self.old.count + 1 }
        ensures faults { BlamesOnly (device_of_turn result) devices.old.told.faults devices.new.told.faults }
    {
        match stopped {
            Stepped::Went => None,
            Stepped::Call => self.call(devices, steps),
            Stepped::Faulted(fault) => Some(Ended::Fault(fault)),
        }
    }

    /// The guest call at which the program stands. It answers how the run ended, if it did.
    fn call<I: Source, O: Sink, E: Sink, L: Ledger>(
        &mut self,
        devices: &mut Devices<I, O, E>,
        steps: &mut Steps<L>,
    ) -> Option<Ended>
        requires count { self.old.count + 1 < 2 ^ 64 }
        requires asks { next self.old.state ≡ Call }
        ensures turn { device_of_turn result ≡ None → Turns
            (world_in self.old.state self.old.calls (outside_of devices.old steps.old))
            (world_in self.new.state self.new.calls (outside_of devices.new steps.new))
            self.old.count self.new.count result }
        ensures fails { (device : Device) → device_of_turn result ≡ Some device → TurnFails
            (world_in self.old.state self.old.calls (outside_of devices.old steps.old))
            (world_in self.new.state self.new.calls (outside_of devices.new steps.new)) device }
        ensures count { (device : Device) → device_of_turn result ≡ Some device → self.new.count ≡ self.old.count }
        ensures grows { self.old.count ≤ self.new.count }
        ensures most { self.new.count ≤ self.old.count + 1 }
        ensures faults { BlamesOnly (device_of_turn result) devices.old.told.faults devices.new.told.faults }
    {
        match self.calls.serve(&mut self.state, devices, steps) {
            Served::Went => {
                self.count += 1;
                None
            }
            Served::Exit(code) => {
                self.count += 1;
                Some(Ended::Exit(code))
            }
            Served::ReadFault => Some(Ended::ReadFault),
            Served::WriteFault => Some(Ended::WriteFault),
            Served::ErrFault => Some(Ended::ErrFault),
        }
    }
}
