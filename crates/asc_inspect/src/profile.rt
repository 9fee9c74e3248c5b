//! How often a plain run meets the addresses of its memory.
ghost use Rattle.std.specs.Prelude.{◌≡◌, ◌≤◌, ◌<◌, ◌+◌, ◌^◌, ℕ, [], Some, None, IfOk, IfErr, slice_index_or, vec_capacity, length};
ghost use Rattle.asc_calls.specs.GuestCall.{Device};
ghost use Rattle.asc_calls.specs.World.{BlamesOnly, outside_of, world_in};
ghost use Rattle.asc_guess.specs.Choice.{CountsRise};
ghost use Rattle.asc_words.specs.Line.{IsRunWithin};
ghost use Rattle.asc_run.specs.Execution.{device_of};
ghost use Rattle.asc_run.specs.Turn.{Turns, TurnFails, device_of_turn};
ghost use Rattle.asc_run.specs.Walk.{Goes, HasNotBegun};
ghost use Rattle.asc_inspect.specs.Profile.{EndsProfile, IsNoted, ShowsProfile, no_meetings};
ghost use Rattle.asc_inspect.specs.Shown.{device_of_result};

use crate::answer::{Answer, Reached};
use crate::meetings::Notes;
use crate::profile_text::profile_text;
use crate::request::Addresses;
use asc_calls::Devices;
use asc_guess::choose;
use asc_outside::{CountSink, Sink, Source, Steps};
use asc_run::{Ended, Process};
use asc_words::RunLine;
use std::alloc::Global;
use std::sync::ledger::Ledger;

/// Runs a program that has not begun to its end or its limit, and gives the text of how it met the addresses of its memory.
pub(crate) fn profile<I: Source, L: Ledger>(
    alloc: Global,
    mut process: Process,
    line: &RunLine,
    addresses: Addresses,
    guest: &mut Devices<I, CountSink, CountSink>,
    steps: &mut Steps<L>,
) -> Result<Vec<u8>, Answer>
    requires within { IsRunWithin line.now }
    requires start { HasNotBegun process.count process.calls }
    ensures shown { IfOk result (λ text. ShowsProfile line.now addresses
        (world_in process.state process.calls (outside_of guest.old steps.old))
        guest.new.told.left steps.new text.items) }
    ensures ended { IfErr result (λ answer. EndsProfile line.now
        (world_in process.state process.calls (outside_of guest.old steps.old))
        guest.new.told.left steps.new answer) }
    ensures faults { BlamesOnly (device_of_result result) guest.old.told.faults guest.new.told.faults }
{
    let shape = process.state.shape();
    let Ok(mut notes) = Notes::new(alloc, shape.base(), shape.size() as usize / 4, line.profile)
    else {
        return Err(Answer::Memory);
    };
    let ended = run(&mut process, &mut notes, line.limit, guest, steps);
    match ended {
        Ended::Exit(_) | Ended::Fault(_) | Ended::Limit => {}
        Ended::ReadFault | Ended::WriteFault | Ended::ErrFault => {
            return Err(Answer::Ended(ended, Reached::Steps(process.count)));
        }
    }
    let chosen = choose(notes.list.as_mut_slice(), u64::from(line.least));
    let chosen = line.pc.or(chosen);
    match profile_text(alloc, ended, process.count, chosen, addresses, &notes) {
        Ok(text) => Ok(text),
        Err(_) => Err(Answer::Memory),
    }
}

/// Runs a program to its end, its limit, or a call in which a device fails, and notes where it stands at each count of steps.
/// No allocator is handed in.
fn run<I: Source, O: Sink, E: Sink, L: Ledger>(
    process: &mut Process,
    notes: &mut Notes,
    limit: u64,
    devices: &mut Devices<I, O, E>,
    steps: &mut Steps<L>,
) -> Ended
    requires limit { limit ≤ 2 ^ 40 }
    requires start { HasNotBegun process.old.count process.old.calls }
    requires unmet { (k : ℕ) → k < length notes.old.table.items → slice_index_or notes.old.table.items k no_meetings ≡ no_meetings }
    requires none_listed { notes.old.list.items ≡ [] }
    requires room { notes.old.profile ≤ vec_capacity notes.old.list }
    ensures goes { Goes limit (IsNoted notes.old.base notes.old.profile notes.new.table.items notes.new.list.items)
        (world_in process.old.state process.old.calls (outside_of devices.old steps.old))
        (world_in process.new.state process.new.calls (outside_of devices.new steps.new))
        process.new.count 0 result }
    ensures base { notes.new.base ≡ notes.old.base }
    ensures words { length notes.new.table.items ≡ length notes.old.table.items }
    ensures rise { CountsRise notes.new.list.items }
    ensures few { length notes.new.list.items ≤ notes.old.profile }
    ensures faults { BlamesOnly (device_of result) devices.old.told.faults devices.new.told.faults }
{
    let mut back = false;
    while process.count < limit {
        let pc = process.state.pc();
        notes.note(pc, process.count, back);
        if let Some(ended) = turn(process, devices, steps) {
            return ended;
        }
        back = process.state.pc() <= pc;
    }
    Ended::Limit
}

/// Takes a step, or serves the guest call at which a program stands. It answers how the program ended, if it did.
#[inline]
fn turn<I: Source, O: Sink, E: Sink, L: Ledger>(
    process: &mut Process,
    devices: &mut Devices<I, O, E>,
    steps: &mut Steps<L>,
) -> Option<Ended>
    requires { process.old.count + 1 < 2 ^ 64 }
    ensures turn { device_of_turn result ≡ None → Turns
        (world_in process.old.state process.old.calls (outside_of devices.old steps.old))
        (world_in process.new.state process.new.calls (outside_of devices.new steps.new))
        process.old.count process.new.count result }
    ensures fails { (device : Device) → device_of_turn result ≡ Some device → TurnFails
        (world_in process.old.state process.old.calls (outside_of devices.old steps.old))
        (world_in process.new.state process.new.calls (outside_of devices.new steps.new)) device }
    ensures count { (device : Device) → device_of_turn result ≡ Some device → process.new.count ≡ process.old.count }
    ensures faults { BlamesOnly (device_of_turn result) devices.old.told.faults devices.new.told.faults }
{
    let count = process.count;
    let stopped = process.go_on(None, 1, steps);
    if process.count == count {
        process.stop(stopped, devices, steps)
    } else {
        None
    }
}
