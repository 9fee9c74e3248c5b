//! The registers after so many steps.
ghost use Rattle.std.specs.Prelude.{◌≡◌, ◌≤◌, ◌<◌, ◌+◌, ◌^◌, ℕ, All, IfErr, IfOk, IfSome, IsNone};
ghost use Rattle.asc_model.specs.Shape.{length_of};
ghost use Rattle.asc_calls.specs.World.{BlamesOnly, outside_of, world_in};
ghost use Rattle.asc_run.specs.Turn.{device_of_turn};
ghost use Rattle.asc_run.specs.Walk.{HasNotBegun};
ghost use Rattle.asc_words.specs.Line.{IsRunWithin};
ghost use Rattle.asc_inspect.specs.Registers.{ComesTo, EndsBeforeStep, EndsRegisters, ShowsRegisters, cells_from, pc_cells, registers_text};
ghost use Rattle.asc_inspect.specs.Shown.{device_of_result};

use crate::answer::{Answer, Reached};
use crate::text::{put_cells, put_number};
use asc_calls::Devices;
use asc_outside::{CountSink, Sink, Source, Steps};
use asc_run::{Ended, Process};
use asc_shape::State;
use asc_words::RunLine;
use std::alloc::{AllocError, Global};
use std::sync::ledger::Ledger;

/// The text of the registers after so many steps of a program that has not begun, or how it ended before that.
pub(crate) fn registers_after<I: Source, L: Ledger>(
    alloc: Global,
    mut process: Process,
    line: &RunLine,
    count: u64,
    guest: &mut Devices<I, CountSink, CountSink>,
    steps: &mut Steps<L>,
) -> Result<Vec<u8>, Answer>
    requires within { IsRunWithin line.now }
    requires start { HasNotBegun process.count process.calls }
    ensures shown { IfOk result (λ text. ShowsRegisters line.now count
        (world_in process.state process.calls (outside_of guest.old steps.old))
        guest.new.told.left steps.new text.items) }
    ensures ended { IfErr result (λ answer. EndsRegisters line.now count
        (world_in process.state process.calls (outside_of guest.old steps.old))
        guest.new.told.left steps.new answer) }
    ensures faults { BlamesOnly (device_of_result result) guest.old.told.faults guest.new.told.faults }
{
    match come(&mut process, count, line.limit, guest, steps) {
        Some(ended) => Err(Answer::Ended(ended, Reached::Steps(process.count))),
        None => registers_text(alloc, count, &process.state).map_err(|_| Answer::Memory),
    }
}

/// Runs a program that has not begun until it has come so many steps. It answers how it ended before that, if it did: by
/// itself, since a device failed, or at its limit.
fn come<I: Source, O: Sink, E: Sink, L: Ledger>(
    process: &mut Process,
    count: u64,
    limit: u64,
    devices: &mut Devices<I, O, E>,
    steps: &mut Steps<L>,
) -> Option<Ended>
    requires limit { limit ≤ 2 ^ 40 }
    requires start { HasNotBegun process.old.count process.old.calls }
    ensures there { IsNone result → ComesTo count
        (world_in process.old.state process.old.calls (outside_of devices.old steps.old))
        (world_in process.new.state process.new.calls (outside_of devices.new steps.new)) }
    ensures within { IsNone result → count ≤ limit }
    ensures ended { IfSome result (λ ended. EndsBeforeStep limit count
        (world_in process.old.state process.old.calls (outside_of devices.old steps.old))
        (world_in process.new.state process.new.calls (outside_of devices.new steps.new)) process.new.count ended) }
    ensures faults { BlamesOnly (device_of_turn result) devices.old.told.faults devices.new.told.faults }
{
    let last = count.min(limit);
    while process.count < last {
        let landed = process.count;
        let stopped = process.go_on(None, last - landed, steps);
        if process.count == landed {
            if let Some(ended) = process.stop(stopped, devices, steps) {
                return Some(ended);
            }
        }
    }
    if limit < count {
        Some(Ended::Limit)
    } else {
        None
    }
}

/// The text of the registers of a state, which so many steps led to.
fn registers_text(alloc: Global, count: u64, state: &State) -> Result<Vec<u8>, AllocError>
    ensures { IfOk result (λ text. text.items ≡ registers_text count state.now) }
{
    let shape = state.shape();
    let mut text = Vec::new(alloc);
    text.extend_from_slice(b"steps ")?;
    put_number(&mut text, count)?;
    text.extend_from_slice(b"\n")?;
    put_cells(
        &mut text,
        shape,
        &cells_from(alloc, state, 0, shape.start())?,
    )?;
    put_cells(&mut text, shape, &pc_cells(alloc, state)?)?;
    Ok(text)
}

/// The cells of the word at the pc, where it is in memory.
fn pc_cells(alloc: Global, state: &State) -> Result<Vec<(u32, u8)>, AllocError>
    ensures cells { IfOk result (λ cells. cells.items ≡ pc_cells state.now) }
    ensures places { IfOk result (λ cells. All (λ cell. cell.0 < length_of state.now.shape) cells.items) }
{
    let shape = state.shape();
    let pc = state.pc();
    if shape.holds(pc, 4) {
        cells_from(alloc, state, shape.place_of(pc), 4)
    } else {
        Ok(Vec::new(alloc))
    }
}

/// Cells of a state, from a place on.
fn cells_from(
    alloc: Global,
    state: &State,
    place: u32,
    count: u32,
) -> Result<Vec<(u32, u8)>, AllocError>
    requires { place + count ≤ length_of state.now.shape }
    ensures cells { IfOk result (λ cells. cells.items ≡ cells_from state.now place count) }
    ensures places { IfOk result (λ cells. All (λ cell. cell.0 < length_of state.now.shape) cells.items) }
{
    // That it is a state bounds how many places there are.
    let _ = state.shape();
    let mut cells = Vec::new(alloc);
    for at in place..place + count {
        cells.push((at, state.get(at)))?;
    }
    Ok(cells)
}
