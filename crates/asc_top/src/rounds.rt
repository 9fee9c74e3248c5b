//! Runs in threads: with workers beside the walk, or in rounds.
ghost use Rattle.std.specs.Prelude.{◌≡◌, ◌+◌, ◌^◌, ◌<◌, ◌≤◌, map, IfOk, IsNone, None};
ghost use Rattle.std.specs.Arc.{arc_value};
ghost use Rattle.asc_calls.specs.World.{outside_of};
ghost use Rattle.asc_run.specs.Helped.{HasRoom};
ghost use Rattle.asc_run.specs.VisitedBy.{IsVisit, MayVisit};
ghost use Rattle.asc_live.specs.Rounds.{told_by};
ghost use Rattle.asc_words.specs.Line.{IsRunWithin};
ghost use Rattle.asc_top.specs.Program.{Files};
ghost use Rattle.asc_top.specs.Ran.{AreOpened, IsThreaded, Ran, Walked, loaded_helper};

use crate::run::{conclusion_at, helper_with, walk_alone, walk_beside};
use crate::settings::{guessing_of, keeps_entries};
use asc_calls::Devices;
use asc_find::Guessing;
use asc_live::Rounds;
use asc_model::{MOST_AHEAD, MOST_WORKERS};
use asc_outside::{Gate, Memory, Sink, Source, Steps};
use asc_run::Walk;
use asc_shape::{Shape, State};
use asc_traj::Entry;
use asc_words::{Answer, Conclusion, RunLine};
use asc_work::Lanes;
use std::alloc::Global;
use std::sync::ledger::Ledger;
use std::sync::{Arc, Wait};
use std::thread::Threads;

/// Runs a walk that has not begun to its end, as a line asks: in rounds where there are lanes, and else with workers beside
/// it. It has these entries before its first visit.
pub(crate) fn walk_in_threads<
    T: Threads + Wait + Sync + Copy + Drop + Send,
    G: Gate + Sync,
    I: Source,
    O: Sink,
    E: Sink,
    L: Ledger,
>(
    rt: &T,
    alloc: Global,
    line: &RunLine,
    lanes: usize,
    walk: &mut Walk,
    first: &[Arc<Entry>],
    gate: &G,
    devices: &mut Devices<I, O, E>,
    steps: &mut Steps<L>,
) -> Conclusion
    requires new { IsNone walk.old.ended }
    requires line { IsRunWithin line.now }
    requires threads { IsThreaded line.now.workers lanes }
    ensures { (files : Files) → AreOpened line.now files walk.old (map arc_value first.now) → Ran
        (outside_of devices.old steps.old) (outside_of devices.new steps.new) line.now files result }
{
    match lanes {
        0 => walk_beside(rt, alloc, line, walk, first, gate, devices, steps),
        lanes => walk_in_rounds(rt, alloc, line, lanes, walk, first, gate, devices, steps),
    }
}

/// Runs a walk that has not begun to its end, as a line without workers beside it asks. So many workers and the run's own
/// thread follow the guesses of each visit in rounds. It has these entries before its first visit.
///
/// What nobody sees is not run, as without lanes.
fn walk_in_rounds<T: Threads + Sync, G: Gate + Sync, I: Source, O: Sink, E: Sink, L: Ledger>(
    rt: &T,
    alloc: Global,
    line: &RunLine,
    lanes: usize,
    walk: &mut Walk,
    first: &[Arc<Entry>],
    gate: &G,
    devices: &mut Devices<I, O, E>,
    steps: &mut Steps<L>,
) -> Conclusion
    requires new { IsNone walk.old.ended }
    requires line { IsRunWithin line.now }
    requires none { line.now.workers ≡ 0 }
    requires some { 1 ≤ lanes }
    requires few { lanes ≤ MOST_WORKERS }
    ensures { (files : Files) → AreOpened line.now files walk.old (map arc_value first.now) → Ran
        (outside_of devices.old steps.old) (outside_of devices.new steps.new) line.now files result }
{
    if !keeps_entries(line) {
        return walk_alone(alloc, line, walk, first, devices, steps);
    }
    match rounds_with(
        alloc,
        walk.shape(),
        guessing_of(line),
        lanes_beside(lanes),
        first,
    ) {
        Ok(mut rounds) => go_in_rounds(rt, line.report, walk, &mut rounds, gate, devices, steps),
        Err(Memory) => Conclusion::of(Answer::Memory),
    }
}

/// Runs a walk that has not begun to its end in rounds, and tells its numbers where they are asked for.
fn go_in_rounds<T: Threads + Sync, G: Gate + Sync, I: Source, O: Sink, E: Sink, L: Ledger>(
    rt: &T,
    is_asked: bool,
    walk: &mut Walk,
    rounds: &mut Rounds,
    gate: &G,
    devices: &mut Devices<I, O, E>,
    steps: &mut Steps<L>,
) -> Conclusion
    requires new { IsNone walk.old.ended }
    requires room { HasRoom (2 ^ 61) (told_by rounds.old) }
    ensures { Walked is_asked walk.old walk.new (outside_of devices.old steps.old) (outside_of devices.new steps.new)
        (told_by rounds.old) (told_by rounds.new) None result }
{
    let visit = |rounds: &mut Rounds, state: &mut State, number: u64|
        requires { MayVisit number (told_by rounds.now) }
        ensures { IsVisit number state.entry.now state.exit.now (told_by rounds.entry.now) (told_by rounds.exit.now) }
    { rounds.visit(rt, state, number, gate) };
    let ended = walk.go_by(rounds, &visit, devices, steps);
    conclusion_at(
        is_asked,
        ended,
        walk.count(),
        walk.counts(),
        rounds.made(),
        rounds.refused(),
    )
}

/// How many lanes there are with so many workers: one of each, and one of the run's own thread, which waits for them. There
/// are 64 at most.
fn lanes_beside(workers: usize) -> usize
    requires some { 1 ≤ workers }
    requires few { workers ≤ MOST_WORKERS }
    ensures one { workers < MOST_WORKERS → result ≡ workers + 1 }
    ensures most { workers ≡ MOST_WORKERS → result ≡ MOST_WORKERS }
{
    (workers + 1).min(MOST_WORKERS)
}

/// A helper in rounds that was not visited yet. It has these entries, and so many lanes.
fn rounds_with(
    alloc: Global,
    shape: Shape,
    guessing: Guessing,
    lanes: usize,
    first: &[Arc<Entry>],
) -> Result<Rounds, Memory>
    requires laps { 1 ≤ guessing.laps }
    requires span { 1 ≤ guessing.span }
    requires ahead { guessing.ahead ≤ MOST_AHEAD }
    requires some { 1 ≤ lanes }
    requires few { lanes ≤ MOST_WORKERS }
    ensures helper { IfOk result (λ rounds. rounds.helper ≡ loaded_helper shape guessing (map arc_value first.now)) }
    ensures lanes { IfOk result (λ rounds. rounds.lanes.lanes ≡ lanes) }
{
    let serial = helper_with(alloc, shape, guessing, first)?;
    let lanes = Lanes::new(alloc, shape, guessing.laps, guessing.span, lanes)?;
    Ok(Rounds::new(serial, lanes))
}
