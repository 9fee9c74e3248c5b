//! A program's devices.
ghost use Rattle.std.specs.Prelude.{◌≡◌, [], Some};
ghost use Rattle.asc_outside.specs.Lists.{given_number};
ghost use Rattle.asc_calls.specs.World.{faults, with_input, with_out};

use asc_outside::{CountSink, Sink, Source, SureSource};
use std::alloc::Global;
use std::marker::Model;

/// A program's devices: its input, which is file 0, its output, which is file 1, and its error output, which is file 2.
///
/// Contracts see them as the three, with what they tell.
#[derive(Drop)]
pub struct Devices<I: Source, O: Sink, E: Sink> {
    pub(crate) input: I,
    pub(crate) out: O,
    pub(crate) err: E,
}

impl<I: Source, O: Sink, E: Sink> Model for Devices<I, O, E> {
    ghost use Rattle.asc_calls.specs.World as model;

    ghost Value = { model.Devices I O E };

    ghost view = { λ d. record {
      input = d.input;
      out = d.out;
      err = d.err;
      told = record {
        left = I.left d.input;
        out = O.given d.out;
        err = E.given d.err;
        faults = model.faults (I.faults d.input) (O.faults d.out) (E.faults d.err);
      };
    } };
}

impl<I: Source, O: Sink, E: Sink> Devices<I, O, E> {
    ghost use Rattle.std.specs.Borrow.{Lends, sem};
    ghost use Rattle.asc_calls.specs.contracts.devices.Devices.{the_row};

    /// These three.
    pub fn new(input: I, out: O, err: E) -> Devices<I, O, E>
        ensures { result ≡ record {
          input = input;
          out = out;
          err = err;
          told = record {
            left = I.left input;
            out = O.given out;
            err = E.given err;
            faults = faults (I.faults input) (O.faults out) (E.faults err);
          };
        } }
    {
        Devices { input, out, err }
    }

    /// The three again.
    pub fn into_parts(self) -> (I, O, E)
        ensures parts { result ≡ (self.input, self.out, self.err) }
        ensures told { self.told ≡ record {
          left = I.left self.input;
          out = O.given self.out;
          err = E.given self.err;
          faults = faults (I.faults self.input) (O.faults self.out) (E.faults self.err);
        } }
    {
        (self.input, self.out, self.err)
    }

    /// The input. A caller's proof learns from it what is told of it.
    pub fn input(&self) -> &I
        ensures input { result.now ≡ self.now.input }
        ensures left { self.now.told.left ≡ I.left self.now.input }
        ensures faults { self.now.told.faults.input ≡ I.faults self.now.input }
    {
        &self.input
    }

    /// The output.
    pub fn out(&self) -> &O
        ensures out { result.now ≡ self.now.out }
        ensures told { self.now.told.out ≡ O.given result.now }
        ensures faults { self.now.told.faults.out ≡ O.faults result.now }
    {
        &self.out
    }

    /// The error output.
    pub fn err(&self) -> &E
        ensures err { result.now ≡ self.now.err }
        ensures told { self.now.told.err ≡ E.given result.now }
        ensures faults { self.now.told.faults.err ≡ E.faults result.now }
    {
        &self.err
    }

    /// The output, to be written to.
    pub fn out_mut(&mut self) -> &mut O
        ensures* writes_back { sem 𝓛 (Lends (the_row I.row O.row E.row I.Source O.Sink E.Sink) O.row self.entry result
            (λ out. with_out self.old out (O.given out) (O.faults out))) }
        ensures out { result.now ≡ self.old.out }
        ensures told { self.old.told.out ≡ O.given result.now }
        ensures faults { self.old.told.faults.out ≡ O.faults result.now }
    {
        &mut self.out
    }

    /// Takes an input in place of its own, which it leaves there.
    pub fn swap_input(&mut self, input: &mut I)
        ensures left { input.new ≡ self.old.input }
        ensures taken { self.new ≡ with_input self.old input.old (I.left input.old) (I.faults input.old) }
    {
        std::mem::swap(&mut self.input, input);
    }
}

/// Devices that have no input, and count what they are given.
pub fn no_devices(alloc: Global) -> Devices<SureSource, CountSink, CountSink>
    ensures { result ≡ record {
      input = [];
      out = 0;
      err = 0;
      told = record { left = Some []; out = given_number 0; err = given_number 0; faults = faults 0 0 0 };
    } }
{
    let input = SureSource::new(Vec::new(alloc));
    Devices::new(input, CountSink::new(), CountSink::new())
}
