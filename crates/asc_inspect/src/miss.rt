//! What guesses of a visit have wrong.
ghost use Rattle.std.specs.Prelude.{◌≡◌, ◌≤◌, ◌<◌, ◌+◌, ◌-◌, ◌^◌, [], ◌∷◌, ℕ, List, IfErr, IfOk};
ghost use Rattle.asc_model.specs.State as model;
ghost use Rattle.asc_calls.specs.World.{World, BlamesOnly, outside_of, world_in};
ghost use Rattle.asc_run.specs.Walk.{HasNotBegun};
ghost use Rattle.asc_words.specs.Line.{IsRunWithin};
ghost use Rattle.asc_inspect.specs.Shown.{device_of_result};
ghost use Rattle.asc_inspect.specs.Standing.{ComesFrom, IsOnWay};
ghost use Rattle.asc_inspect.specs.Missed.{EndsMisses, IsGuessText, IsKindText, IsMissText, ShowsMisses, StopsShort, is_on};

use crate::answer::{Answer, Reached};
use crate::lap::trace_guess;
use crate::miss_text::put_guess;
use crate::request::Visit;
use crate::visit::Visitor;
use asc_calls::Devices;
use asc_guess::{Kind, guess_from};
use asc_outside::{CountSink, Memory, Source, Steps};
use asc_run::Process;
use asc_shape::{Snapshot, State};
use asc_words::RunLine;
use std::alloc::Global;
use std::sync::Arc;
use std::sync::ledger::Ledger;

/// The text of what the guesses of a visit from the two before it have wrong. A program that has not begun is run plainly
/// to that visit; what it writes is only counted.
pub(crate) fn misses_at<I: Source, L: Ledger>(
    alloc: Global,
    process: Process,
    line: &RunLine,
    visit: Visit,
    guest: &mut Devices<I, CountSink, CountSink>,
    steps: &mut Steps<L>,
) -> Result<Vec<u8>, Answer>
    requires within { IsRunWithin line.now }
    requires start { HasNotBegun process.count process.calls }
    requires number { 3 ≤ visit.number }
    ensures shown { IfOk result (λ text. ShowsMisses line.now visit
        (world_in process.state process.calls (outside_of guest.old steps.old))
        guest.new.told.left steps.new text.items) }
    ensures ended { IfErr result (λ answer. EndsMisses line.now visit
        (world_in process.state process.calls (outside_of guest.old steps.old))
        guest.new.told.left steps.new answer) }
    ensures faults { BlamesOnly (device_of_result result) guest.old.told.faults guest.new.told.faults }
{
    let mut visitor = Visitor { process, visits: 0 };
    let copies = come_with_copies(alloc, &mut visitor, visit, line.limit, guest, steps)?;
    match misses_text(
        alloc,
        line,
        visit.pc,
        &copies.0,
        &copies.1,
        &visitor.process.state,
    ) {
        Ok(text) => Ok(text),
        Err(Memory) => Err(Answer::Memory),
    }
}

/// Runs a program on to a visit, and copies the states at the two before it.
fn come_with_copies<I: Source, L: Ledger>(
    alloc: Global,
    visitor: &mut Visitor,
    visit: Visit,
    limit: u64,
    guest: &mut Devices<I, CountSink, CountSink>,
    steps: &mut Steps<L>,
) -> Result<(Arc<Snapshot>, Arc<Snapshot>), Answer>
    requires limit { limit ≤ 2 ^ 40 }
    requires count { visitor.old.process.count ≤ limit }
    requires few { visitor.old.visits ≤ visitor.old.process.count }
    requires before { visitor.old.visits + 2 < visit.number }
    // Wherever it began.
    ensures there { IfOk result (λ copies. (start : World) → IsOnWay visit.pc visitor.old.visits [] start
        (world_in visitor.old.process.state visitor.old.process.calls (outside_of guest.old steps.old)) visitor.old.process.count
        → ComesFrom visit.pc visit.number ((visit.number - 1, copies.1.value) ∷ (visit.number - 2, copies.0.value) ∷ []) start
        (world_in visitor.new.process.state visitor.new.process.calls (outside_of guest.new steps.new)) visitor.new.process.count) }
    ensures shapes { IfOk result (λ copies. (start : World) → IsOnWay visit.pc visitor.old.visits [] start
        (world_in visitor.old.process.state visitor.old.process.calls (outside_of guest.old steps.old)) visitor.old.process.count
        → (copies.0.value.shape ≡ start.state.shape) × (copies.1.value.shape ≡ start.state.shape)) }
    ensures ended { IfErr result (λ answer. (start : World) → IsOnWay visit.pc visitor.old.visits [] start
        (world_in visitor.old.process.state visitor.old.process.calls (outside_of guest.old steps.old)) visitor.old.process.count
        → StopsShort limit visit start
        (world_in visitor.new.process.state visitor.new.process.calls (outside_of guest.new steps.new)) visitor.new.process.count answer) }
    ensures below { IfOk result (λ _. visitor.new.process.count < limit) }
    ensures faults { BlamesOnly (device_of_result result) guest.old.told.faults guest.new.told.faults }
{
    let Visit { pc, number } = visit;
    let first = Visit {
        pc,
        number: number - 2,
    };
    let prev = copy_at(alloc, visitor, first, limit, guest, steps)?;
    let second = Visit {
        pc,
        number: number - 1,
    };
    let last = copy_at(alloc, visitor, second, limit, guest, steps)?;
    come_to(visitor, visit, limit, guest, steps)?;
    Ok((prev, last))
}

/// Runs a program on to a visit, and copies the state there.
fn copy_at<I: Source, L: Ledger>(
    alloc: Global,
    visitor: &mut Visitor,
    visit: Visit,
    limit: u64,
    guest: &mut Devices<I, CountSink, CountSink>,
    steps: &mut Steps<L>,
) -> Result<Arc<Snapshot>, Answer>
    requires limit { limit ≤ 2 ^ 40 }
    requires count { visitor.old.process.count ≤ limit }
    requires few { visitor.old.visits ≤ visitor.old.process.count }
    requires before { visitor.old.visits < visit.number }
    // Wherever it began, and whatever was seen at earlier visits, it goes on so.
    ensures there { IfOk result (λ copy. (start : World) (seen : List (ℕ × model.State)) → IsOnWay visit.pc visitor.old.visits seen start
        (world_in visitor.old.process.state visitor.old.process.calls (outside_of guest.old steps.old)) visitor.old.process.count
        → IsOnWay visit.pc visitor.new.visits ((visit.number, copy.value) ∷ seen) start
        (world_in visitor.new.process.state visitor.new.process.calls (outside_of guest.new steps.new)) visitor.new.process.count) }
    ensures ended { IfErr result (λ answer. (start : World) (seen : List (ℕ × model.State)) → IsOnWay visit.pc visitor.old.visits seen start
        (world_in visitor.old.process.state visitor.old.process.calls (outside_of guest.old steps.old)) visitor.old.process.count
        → StopsShort limit visit start
        (world_in visitor.new.process.state visitor.new.process.calls (outside_of guest.new steps.new)) visitor.new.process.count answer) }
    ensures copied { IfOk result (λ copy. copy.value ≡ visitor.new.process.state) }
    ensures last { IfOk result (λ _. visitor.new.visits + 1 ≡ visit.number) }
    ensures few { IfOk result (λ _. visitor.new.visits ≤ visitor.new.process.count) }
    ensures limit { visitor.new.process.count ≤ limit }
    ensures faults { BlamesOnly (device_of_result result) guest.old.told.faults guest.new.told.faults }
{
    come_to(visitor, visit, limit, guest, steps)?;
    match Snapshot::of(alloc, &visitor.process.state) {
        Ok(copy) => Ok(copy),
        Err(Memory) => Err(Answer::Memory),
    }
}

/// Runs a program on to a visit.
fn come_to<I: Source, L: Ledger>(
    visitor: &mut Visitor,
    visit: Visit,
    limit: u64,
    guest: &mut Devices<I, CountSink, CountSink>,
    steps: &mut Steps<L>,
) -> Result<(), Answer>
    requires limit { limit ≤ 2 ^ 40 }
    requires count { visitor.old.process.count ≤ limit }
    requires few { visitor.old.visits ≤ visitor.old.process.count }
    requires before { visitor.old.visits < visit.number }
    // Wherever it began, and whatever was seen at earlier visits, it goes on so.
    ensures there { IfOk result (λ _. (start : World) (seen : List (ℕ × model.State)) → IsOnWay visit.pc visitor.old.visits seen start
        (world_in visitor.old.process.state visitor.old.process.calls (outside_of guest.old steps.old)) visitor.old.process.count
        → ComesFrom visit.pc visit.number seen start
        (world_in visitor.new.process.state visitor.new.process.calls (outside_of guest.new steps.new)) visitor.new.process.count) }
    ensures ended { IfErr result (λ answer. (start : World) (seen : List (ℕ × model.State)) → IsOnWay visit.pc visitor.old.visits seen start
        (world_in visitor.old.process.state visitor.old.process.calls (outside_of guest.old steps.old)) visitor.old.process.count
        → StopsShort limit visit start
        (world_in visitor.new.process.state visitor.new.process.calls (outside_of guest.new steps.new)) visitor.new.process.count answer) }
    ensures last { IfOk result (λ _. visitor.new.visits + 1 ≡ visit.number) }
    ensures few { IfOk result (λ _. visitor.new.visits ≤ visitor.new.process.count) }
    ensures limit { visitor.new.process.count ≤ limit }
    ensures below { IfOk result (λ _. visitor.new.process.count < limit) }
    ensures faults { BlamesOnly (device_of_result result) guest.old.told.faults guest.new.told.faults }
{
    match visitor.come_on(visit.pc, visit.number, limit, guest, steps) {
        None => Ok(()),
        Some(ended) => Err(Answer::Ended(ended, Reached::Visits(visitor.visits))),
    }
}

/// The text of what the guesses from these two states have wrong, where this state was met.
fn misses_text(
    alloc: Global,
    line: &RunLine,
    pc: u32,
    prev: &Arc<Snapshot>,
    last: &Arc<Snapshot>,
    now: &State,
) -> Result<Vec<u8>, Memory>
    requires within { IsRunWithin line.now }
    requires prev { prev.now.value.shape ≡ last.now.value.shape }
    requires last { last.now.value.shape ≡ now.now.shape }
    ensures { IfOk result (λ text. IsMissText line.now pc prev.now.value last.now.value now.now text.items) }
{
    let mut text = kind_misses(alloc, line, pc, Kind::Last, prev, last, now)?;
    let by_stride = kind_misses(alloc, line, pc, Kind::Stride, prev, last, now)?;
    text.extend_from_slice(&by_stride)?;
    Ok(text)
}

/// The text of guesses of a kind.
fn kind_misses(
    alloc: Global,
    line: &RunLine,
    pc: u32,
    kind: Kind,
    prev: &Arc<Snapshot>,
    last: &Arc<Snapshot>,
    now: &State,
) -> Result<Vec<u8>, Memory>
    requires within { IsRunWithin line.now }
    requires prev { prev.now.value.shape ≡ last.now.value.shape }
    requires last { last.now.value.shape ≡ now.now.shape }
    ensures { IfOk result (λ text. IsKindText line.now pc kind prev.now.value last.now.value now.now text.items) }
{
    if is_on(line, kind) {
        guess_misses(alloc, line, pc, kind, prev, last, now)
    } else {
        Ok(Vec::new(alloc))
    }
}

/// Whether guesses of a kind are on.
fn is_on(line: &RunLine, kind: Kind) -> bool
    ensures { result ≡ is_on line.now kind }
{
    match kind {
        Kind::Last => line.last,
        Kind::Stride => line.stride,
    }
}

/// The text of the guess of a kind.
fn guess_misses(
    alloc: Global,
    line: &RunLine,
    pc: u32,
    kind: Kind,
    prev: &Arc<Snapshot>,
    last: &Arc<Snapshot>,
    now: &State,
) -> Result<Vec<u8>, Memory>
    requires within { IsRunWithin line.now }
    requires prev { prev.now.value.shape ≡ last.now.value.shape }
    requires last { last.now.value.shape ≡ now.now.shape }
    ensures { IfOk result (λ text. IsGuessText line.now pc kind prev.now.value last.now.value now.now text.items) }
{
    let guess = guess_from(kind, prev, last, 1)?;
    let lap = trace_guess(alloc, guess, pc, line.laps, line.span)?;
    let mut text = Vec::new(alloc);
    put_guess(alloc, &mut text, kind, now, &lap)?;
    Ok(text)
}
