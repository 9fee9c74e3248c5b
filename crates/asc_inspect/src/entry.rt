//! The entry of the lap that begins at a visit.
ghost use Rattle.std.specs.Prelude.{◌≡◌, ◌≤◌, ◌⊎◌, None, IfErr, IfOk};
ghost use Rattle.asc_calls.specs.World.{BlamesOnly, outside_of, world_in};
ghost use Rattle.asc_run.specs.Walk.{HasNotBegun};
ghost use Rattle.asc_words.specs.Line.{IsRunWithin};
ghost use Rattle.asc_inspect.specs.Entered.{EndsEntry, HasText, ShowsEntry};
ghost use Rattle.asc_inspect.specs.Shown.{device_of_result};

use crate::answer::{Answer, Reached};
use crate::lap::{Lap, trace_lap};
use crate::request::Visit;
use crate::text::entry_text;
use crate::visit::Visitor;
use asc_calls::Devices;
use asc_outside::{CountSink, Source, Steps};
use asc_run::Process;
use asc_words::RunLine;
use std::alloc::Global;
use std::sync::ledger::Ledger;

/// The text of the entry of the lap that begins at a visit, to which a program that has not begun is run plainly; or why
/// there is none.
pub(crate) fn entry_of_visit<I: Source, L: Ledger>(
    alloc: Global,
    process: Process,
    line: &RunLine,
    visit: Visit,
    guest: &mut Devices<I, CountSink, CountSink>,
    steps: &mut Steps<L>,
) -> Result<Vec<u8>, Answer>
    requires within { IsRunWithin line.now }
    requires start { HasNotBegun process.count process.calls }
    requires number { 1 ≤ visit.number }
    ensures shown { IfOk result (λ text. ShowsEntry line.now visit
        (world_in process.state process.calls (outside_of guest.old steps.old))
        guest.new.told.left steps.new text.items) }
    ensures ended { IfErr result (λ answer. EndsEntry line.now visit
        (world_in process.state process.calls (outside_of guest.old steps.old))
        guest.new.told.left steps.new answer) }
    ensures faults { BlamesOnly (device_of_result result) guest.old.told.faults guest.new.told.faults }
{
    let mut visitor = Visitor { process, visits: 0 };
    if let Some(ended) = visitor.come(visit.pc, visit.number, line.limit, guest, steps) {
        return Err(Answer::Ended(ended, Reached::Visits(visitor.visits)));
    }
    match trace_lap(
        alloc,
        &visitor.process.state,
        visit.pc,
        line.laps,
        line.span,
    ) {
        Ok(lap) => lap_text(alloc, &lap),
        Err(_) => Err(Answer::Memory),
    }
}

/// The text of a lap's entry.
fn lap_text(alloc: Global, lap: &Lap) -> Result<Vec<u8>, Answer>
    ensures text { IfOk result (λ text. HasText lap.now text.items) }
    ensures none { IfErr result
        (λ answer. (answer ≡ Answer.Memory) ⊎ ((answer ≡ Answer.NoStep) × (lap.now.entry ≡ None))) }
{
    match &lap.entry {
        Some(entry) => entry_text(alloc, entry, lap.why).map_err(|_| Answer::Memory),
        None => Err(Answer::NoStep),
    }
}
