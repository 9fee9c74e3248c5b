//! `asc run`, and runs of a file that is at hand.
ghost use Rattle.std.specs.Prelude.{◌≡◌, ◌<◌, ◌≤◌, ◌^◌, length, map, true, IfOk, IsNone, None, Ok};
ghost use Rattle.std.specs.Arc.{arc_value};
ghost use Rattle.asc_calls.specs.World.{outside_of};
ghost use Rattle.asc_run.specs.Helped.{HasRoom};
ghost use Rattle.asc_words.specs.Line.{IsRunWithin, file_limit};
ghost use Rattle.asc_top.specs.Program.{Files, image_alone};
ghost use Rattle.asc_top.specs.Program.{answer_at};
ghost use Rattle.asc_top.specs.Numbers.{asks_for_threads, counts_of, reported_at};
ghost use Rattle.asc_top.specs.Ran.{AreOpened, IsThreaded, Ran, RanBeside, Walked, loaded_helper};
ghost use Rattle.asc_top.specs.Answered.{IsAnswerFor, around};
ghost use Rattle.asc_top.specs.Workers.{workers_of};

use crate::numbers::{answer_at, counts_of, reported_at, workers_of};
use crate::opened::{open, walk_of};
use crate::rounds::walk_in_threads;
use crate::settings::{crew_of, guessing_of, keeps_entries, settings_of};
use asc_calls::Devices;
use asc_find::{Bare, Guessing, Helper, Nothing};
use asc_live::{Worked, go_beside};
use asc_model::{MOST_AHEAD, RunCounts};
use asc_outside::{Gate, Memory, Sink, Source, Steps, Store};
use asc_run::{Ended, Serial, Walk};
use asc_shape::Shape;
use asc_traj::Entry;
use asc_words::{Answer, Conclusion, Line, RunLine};
use std::alloc::Global;
use std::sync::ledger::Ledger;
use std::sync::{Arc, Wait};
use std::thread::Threads;

/// Runs the file that a line names, without workers.
pub(crate) fn run_alone<F: Store, I: Source, O: Sink, E: Sink, L: Ledger>(
    alloc: Global,
    line: &RunLine,
    store: &mut F,
    devices: &mut Devices<I, O, E>,
    steps: &mut Steps<L>,
) -> Conclusion
    requires line { IsRunWithin line.now }
    requires none { line.now.workers ≡ 0 }
    ensures { IsAnswerFor (Ok (Line.Run line.now))
        (around (F.files store.old) (F.asked store.old) (F.faults store.old) (outside_of devices.old steps.old))
        (around (F.files store.new) (F.asked store.new) (F.faults store.new) (outside_of devices.new steps.new)) result }
{
    match open(alloc, line, store) {
        Ok(mut opened) => walk_alone(alloc, line, &mut opened.walk, &opened.first, devices, steps),
        Err(answer) => Conclusion::of(answer),
    }
}

/// Runs the file that a line names, with workers beside it or in rounds.
pub(crate) fn run_beside<
    T: Threads + Wait + Sync + Copy + Drop + Send,
    F: Store,
    I: Source,
    O: Sink,
    E: Sink,
    G: Gate + Sync,
    L: Ledger,
>(
    rt: &T,
    alloc: Global,
    line: &RunLine,
    store: &mut F,
    devices: &mut Devices<I, O, E>,
    gate: &G,
    steps: &mut Steps<L>,
) -> Conclusion
    requires line { IsRunWithin line.now }
    requires some { asks_for_threads (Line.Run line.now) ≡ true }
    ensures { IsAnswerFor (Ok (Line.Run line.now))
        (around (F.files store.old) (F.asked store.old) (F.faults store.old) (outside_of devices.old steps.old))
        (around (F.files store.new) (F.asked store.new) (F.faults store.new) (outside_of devices.new steps.new)) result }
{
    match open(alloc, line, store) {
        Ok(mut opened) => walk_in_threads(
            rt,
            alloc,
            line,
            line.lanes,
            &mut opened.walk,
            &opened.first,
            gate,
            devices,
            steps,
        ),
        Err(answer) => Conclusion::of(answer),
    }
}

/// Runs a file, as a line without workers asks. No saved entries are read.
pub(crate) fn run_file_alone<I: Source, O: Sink, E: Sink, L: Ledger>(
    alloc: Global,
    line: &RunLine,
    file: &[u8],
    devices: &mut Devices<I, O, E>,
    steps: &mut Steps<L>,
) -> Conclusion
    requires line { IsRunWithin line.now }
    requires none { line.now.workers ≡ 0 }
    requires file { length file.now ≤ file_limit }
    ensures { Ran (outside_of devices.old steps.old)
        (outside_of devices.new steps.new) line.now (image_alone file.now) result }
{
    match walk_of(alloc, line, settings_of(line), file) {
        Ok(mut walk) => walk_alone(alloc, line, &mut walk, &[], devices, steps),
        Err(answer) => Conclusion::of(answer),
    }
}

/// Runs a file, as a line with workers asks, or in rounds with so many lanes. No saved entries are read.
pub(crate) fn run_file_beside<
    T: Threads + Wait + Sync + Copy + Drop + Send,
    I: Source,
    O: Sink,
    E: Sink,
    G: Gate + Sync,
    L: Ledger,
>(
    rt: &T,
    alloc: Global,
    line: &RunLine,
    lanes: usize,
    file: &[u8],
    devices: &mut Devices<I, O, E>,
    gate: &G,
    steps: &mut Steps<L>,
) -> Conclusion
    requires line { IsRunWithin line.now }
    requires threads { IsThreaded line.now.workers lanes }
    requires file { length file.now ≤ file_limit }
    ensures { Ran (outside_of devices.old steps.old)
        (outside_of devices.new steps.new) line.now (image_alone file.now) result }
{
    match walk_of(alloc, line, settings_of(line), file) {
        Ok(mut walk) => walk_in_threads(
            rt,
            alloc,
            line,
            lanes,
            &mut walk,
            &[],
            gate,
            devices,
            steps,
        ),
        Err(answer) => Conclusion::of(answer),
    }
}

/// Runs a walk that has not begun to its end, as a line without workers asks. It has these entries before its first visit.
///
/// What nobody sees is not run: nothing is guessed where there are no saved entries and the numbers are not reported,
/// since guesses change nothing else then.
pub(crate) fn walk_alone<I: Source, O: Sink, E: Sink, L: Ledger>(
    alloc: Global,
    line: &RunLine,
    walk: &mut Walk,
    first: &[Arc<Entry>],
    devices: &mut Devices<I, O, E>,
    steps: &mut Steps<L>,
) -> Conclusion
    requires new { IsNone walk.old.ended }
    requires line { IsRunWithin line.now }
    requires none { line.now.workers ≡ 0 }
    ensures { (files : Files) → AreOpened line.now files walk.old (map arc_value first.now) → Ran
        (outside_of devices.old steps.old) (outside_of devices.new steps.new) line.now files result }
{
    if !keeps_entries(line) {
        let mut helper = Bare::new(Nothing::new());
        return run_with(line.report, walk, &mut helper, devices, steps);
    }
    match helper_with(alloc, walk.shape(), guessing_of(line), first) {
        Ok(mut helper) => run_with(line.report, walk, &mut helper, devices, steps),
        Err(Memory) => Conclusion::of(Answer::Memory),
    }
}

/// A helper that was not visited yet, and has these entries.
pub(crate) fn helper_with(
    alloc: Global,
    shape: Shape,
    guessing: Guessing,
    first: &[Arc<Entry>],
) -> Result<Serial, Memory>
    requires laps { 1 ≤ guessing.laps }
    requires span { 1 ≤ guessing.span }
    requires ahead { guessing.ahead ≤ MOST_AHEAD }
    ensures { IfOk result (λ helper. helper ≡ loaded_helper shape guessing (map arc_value first.now)) }
{
    let mut helper = Serial::new(alloc, shape, guessing)?;
    for entry in first {
        helper.preload(Arc::try_clone(entry)?);
    }
    Ok(helper)
}

/// Runs a walk that has not begun to its end, with a helper, and tells its numbers where they are asked for.
pub(crate) fn run_with<H: Helper, I: Source, O: Sink, E: Sink, L: Ledger>(
    is_asked: bool,
    walk: &mut Walk,
    helper: &mut H,
    devices: &mut Devices<I, O, E>,
    steps: &mut Steps<L>,
) -> Conclusion
    requires new { IsNone walk.old.ended }
    requires room { HasRoom (2 ^ 61) (H.aid helper.old) }
    ensures { Walked is_asked walk.old walk.new (outside_of devices.old steps.old) (outside_of devices.new steps.new)
        (H.aid helper.old) (H.aid helper.new) None result }
{
    let ended = walk.go(helper, devices, steps);
    conclusion_at(
        is_asked,
        ended,
        walk.count(),
        walk.counts(),
        helper.made(),
        helper.refused(),
    )
}

/// What a walk without workers beside it comes to that ended so after `count` steps, with its numbers where they are asked
/// for.
pub(crate) fn conclusion_at(
    is_asked: bool,
    ended: Ended,
    count: u64,
    walked: RunCounts,
    made: u64,
    refused: u64,
) -> Conclusion
    ensures { result ≡ record {
      answer = answer_at ended count;
      counts = reported_at is_asked ended (counts_of walked made refused);
      workers = None;
    } }
{
    Conclusion {
        answer: answer_at(ended, count),
        counts: reported_at(is_asked, ended, counts_of(walked, made, refused)),
        workers: None,
    }
}

/// Runs a walk that has not begun to its end, with workers beside it, and tells their numbers where they are asked for. Its
/// look-ups know these entries from the beginning.
pub(crate) fn walk_beside<
    T: Threads + Wait + Sync + Copy + Drop + Send,
    G: Gate + Sync,
    I: Source,
    O: Sink,
    E: Sink,
    L: Ledger,
>(
    rt: &T,
    alloc: Global,
    line: &RunLine,
    walk: &mut Walk,
    first: &[Arc<Entry>],
    gate: &G,
    devices: &mut Devices<I, O, E>,
    steps: &mut Steps<L>,
) -> Conclusion
    requires new { IsNone walk.old.ended }
    requires line { IsRunWithin line.now }
    requires some { 0 < line.now.workers }
    ensures { RanBeside line.now walk.old walk.new (outside_of devices.old steps.old)
        (outside_of devices.new steps.new) result }
{
    let Ok(worked) = go_beside(
        rt,
        alloc,
        walk,
        guessing_of(line),
        crew_of(line),
        first,
        gate,
        devices,
        steps,
    ) else {
        return Conclusion::of(Answer::Memory);
    };
    worked_conclusion(line.report, walk.count(), walk.counts(), &worked)
}

/// What a walk with workers beside it comes to that went so for `count` steps, with the numbers where they are asked for.
pub(crate) fn worked_conclusion(
    is_asked: bool,
    count: u64,
    walked: RunCounts,
    worked: &Worked,
) -> Conclusion
    ensures { result ≡ record {
      answer = answer_at worked.now.ended count;
      counts = reported_at is_asked worked.now.ended (counts_of walked worked.now.made worked.now.refused);
      workers = reported_at is_asked worked.now.ended (workers_of worked.now);
    } }
{
    let ended = worked.ended;
    let counts = counts_of(walked, worked.made, worked.refused);
    Conclusion {
        answer: answer_at(ended, count),
        counts: reported_at(is_asked, ended, counts),
        workers: reported_at(is_asked, ended, workers_of(worked)),
    }
}
