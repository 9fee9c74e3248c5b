ghost use Rattle.std.specs.Prelude.{◌≡◌, ◌+◌, ◌==◌, ◌||◌, ℕ, List, Option, IsTrue, IfOk, OnErr, length, false};
ghost use Rattle.asc_model.specs.Shape.{holds};
ghost use Rattle.asc_model.specs.Machine.{register, view_of};
ghost use Rattle.asc_outside.specs.Outside.{Given, HasCause};
ghost use Rattle.asc_calls.specs.GuestCall.{early_answer, state_after_answer, negative_answer};
ghost use Rattle.asc_calls.specs.World.{BlamesOnly, CallState, DeviceFaults, faults, outside_of, world, world_in};
ghost use Rattle.asc_calls.specs.Serving.{Serves, failed_in};

use crate::Devices;
use crate::filling::fill;
use asc_outside::{Failed, Sink, Source, Steps, put_all};
use asc_shape::State;
use std::marker::Model;
use std::sync::ledger::Ledger;

/// What a guest call came to.
#[derive(Clone, Copy, Debug, PartialEq, Eq)]
pub enum Served {
    /// The program goes on behind the call.
    Went,
    /// The program ended with this code.
    Exit(u8),
    /// The input failed.
    ReadFault,
    /// The sink of file 1 failed.
    WriteFault,
    /// The sink of file 2 failed.
    ErrFault,
}

/// The guest calls of one run, with what they keep from call to call.
#[derive(Debug, Drop)]
pub struct Calls {
    low: u32,
    high: u32,
    brk: u32,
    ended: bool,
}

impl Model for Calls {
    ghost use Rattle.asc_calls.specs.World as model;

    ghost Value = { model.CallState };

    ghost view = { λ c. record { low = c.low; high = c.high; brk = c.brk; ended = c.ended } };
}

impl Calls {
    ghost use Rattle.asc_calls.specs.GuestCall.{break_after};
    ghost use Rattle.asc_calls.specs.Filling.{Reads, ReadsPart};

    /// The calls of a run whose break stands at `low` at first, and may rise to `high`.
    pub fn new(low: u32, high: u32) -> Calls
        ensures { result ≡ record { low = low; high = high; brk = low; ended = false } }
    {
        Calls {
            low,
            high,
            brk: low,
            ended: false,
        }
    }

    /// Serves the call that a state stands at. No allocator is handed in.
    ///
    /// Served are read (63) of file 0, write (64) to files 1 and 2, exit (93), exit_group (94) and brk (214). Every
    /// other number answers -38 (ENOSYS). Read and write answer -9 (EBADF) for another file and -14 (EFAULT) for a
    /// buffer that is not all inside memory.
    ///
    /// A call by which the program goes on or ends counts one step. Where a device fails, the call counts none, and
    /// leaves the pc, the registers, the break, and memory outside the buffer as they were.
    pub fn serve<I: Source, O: Sink, E: Sink, L: Ledger>(
        &mut self,
        state: &mut State,
        devices: &mut Devices<I, O, E>,
        steps: &mut Steps<L>,
    ) -> Served
        ensures served { Serves
            (world_in state.old self.old (outside_of devices.old steps.old))
            (world_in state.new self.new (outside_of devices.new steps.new)) result }

        // Once the end of the input was found, the source is not asked.
        ensures unasked { IsTrue self.old.ended → devices.new.input ≡ devices.old.input }

        // The count of faults of the device that failed rises by one, and those of the others stay.
        ensures faults { BlamesOnly (failed_in result) devices.old.told.faults devices.new.told.faults }
    {
        match state.reg(17) {
            READ => self.read(state, &mut devices.input, steps),
            WRITE => write(state, &mut devices.out, &mut devices.err, steps),
            EXIT | EXIT_GROUP => {
                steps.tick();
                Served::Exit((state.reg(10) & 0xFF) as u8)
            }
            BRK => {
                let answer = self.move_break(state.reg(10));
                go_on(state, answer, steps)
            }
            _ => go_on(state, ENOSYS.wrapping_neg(), steps),
        }
    }

    /// Reads from the input into memory.
    fn read<I: Source, L: Ledger>(
        &mut self,
        state: &mut State,
        input: &mut I,
        steps: &mut Steps<L>,
    ) -> Served
        requires { register (view_of state.old) 17 ≡ 63 }
        ensures served { (out err : Given) (before after : DeviceFaults) → Serves
            (world state.old self.old (I.left input.old) out err steps.old before)
            (world state.new self.new (I.left input.new) out err steps.new after)
            result }
        ensures unasked { IsTrue self.old.ended → input.new ≡ input.old }
        ensures faults { (out err : ℕ) → BlamesOnly (failed_in result)
            (faults (I.faults input.old) out err) (faults (I.faults input.new) out err) }
    {
        if let Some(answer) = early_answer(state, state.reg(10) == 0) {
            return go_on(state, answer, steps);
        }
        let buffer = state.reg(11);
        let n = state.reg(12);
        match self.take(state, buffer, n, input) {
            Ok(count) => go_on(state, count, steps),
            Err(Failed) => Served::ReadFault,
        }
    }

    /// Takes bytes of the input into memory until there are n, or its end is found, and tells how many.
    fn take<I: Source>(
        &mut self,
        state: &mut State,
        buffer: u32,
        n: u32,
        input: &mut I,
    ) -> Result<u32, Failed>
        requires { IsTrue (holds state.old.shape buffer n) }
        ensures reads { IfOk result (λ count.
            Reads (I.left input.old) (I.left input.new) state.old state.new buffer n self.old self.new count) }
        ensures part { OnErr result
            (ReadsPart (I.left input.old) (I.left input.new) state.old state.new buffer n self.old self.new) }
        ensures unasked { IsTrue self.old.ended → input.new ≡ input.old }
        ensures cause { HasCause (I.faults input.old) (I.faults input.new) result }
    {
        // The shape tells that this is a state, so that its memory holds the buffer.
        let _ = state.shape();
        if self.ended {
            return Ok(0);
        }
        let count = fill(input, state, buffer, n)?;
        self.ended = count < n;
        Ok(count)
    }

    /// Moves the break where the address is within its bounds, and tells the break.
    fn move_break(&mut self, address: u32) -> u32
        ensures answer { result ≡ break_after self.old.low self.old.high self.old.brk address }
        ensures brk { self.new ≡ record self.old { brk = result } }
    {
        if self.low <= address && address <= self.high {
            self.brk = address;
        }
        self.brk
    }
}

/// Writes from memory to a sink.
fn write<O: Sink, E: Sink, L: Ledger>(
    state: &mut State,
    out: &mut O,
    err: &mut E,
    steps: &mut Steps<L>,
) -> Served
    requires { register (view_of state.old) 17 ≡ 64 }
    ensures served { (calls : CallState) (left : Option (List ℕ)) (before after : DeviceFaults) → Serves
        (world state.old calls left (O.given out.old) (E.given err.old) steps.old before)
        (world state.new calls left (O.given out.new) (E.given err.new) steps.new after)
        result }
    ensures faults { (input : ℕ) → BlamesOnly (failed_in result)
        (faults input (O.faults out.old) (E.faults err.old))
        (faults input (O.faults out.new) (E.faults err.new)) }
{
    let file = state.reg(10);
    if let Some(answer) = early_answer(state, is_output(file)) {
        return go_on(state, answer, steps);
    }
    let n = state.reg(12);
    let bytes = state.mem(state.reg(11), n);
    if file == 1 {
        match put_all(out, bytes) {
            Ok(()) => go_on(state, n, steps),
            Err(Failed) => Served::WriteFault,
        }
    } else {
        match put_all(err, bytes) {
            Ok(()) => go_on(state, n, steps),
            Err(Failed) => Served::ErrFault,
        }
    }
}

/// Whether a file is one of those that write serves.
fn is_output(file: u32) -> bool
    ensures { result ≡ ((file == 1) || (file == 2)) }
{
    file == 1 || file == 2
}

/// What read and write answer by themselves: for a file that they do not serve, for no bytes, and for a buffer that is
/// not all inside memory.
fn early_answer(state: &State, serves_file: bool) -> Option<u32>
    ensures { result ≡ early_answer state.now.shape serves_file (register (view_of state.now) 11)
        (register (view_of state.now) 12) }
{
    let n = state.reg(12);
    if !serves_file {
        Some(EBADF.wrapping_neg())
    } else if n == 0 {
        Some(0)
    } else if !state.holds(state.reg(11), n) {
        Some(EFAULT.wrapping_neg())
    } else {
        None
    }
}

/// Answers in x10, goes on behind the call, and counts it.
fn go_on<L: Ledger>(state: &mut State, answer: u32, steps: &mut Steps<L>) -> Served
    ensures went { result ≡ Served.Went }
    ensures state { state.new ≡ state_after_answer state.old answer }
    ensures steps { steps.new ≡ steps.old + 1 }
{
    let next = state.pc().wrapping_add(4);
    state.set_reg(10, answer);
    state.set_pc(next);
    steps.tick();
    Served::Went
}

// The numbers of the calls.
const READ: u32 = 63;

const WRITE: u32 = 64;

const EXIT: u32 = 93;

const EXIT_GROUP: u32 = 94;

const BRK: u32 = 214;

/// The file is not one that the call serves.
const EBADF: u32 = 9;

/// The buffer is not all inside memory.
const EFAULT: u32 = 14;

/// There is no such call.
const ENOSYS: u32 = 38;
