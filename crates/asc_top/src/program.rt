ghost use Rattle.std.specs.Prelude.{◌≡◌, ◌≢◌, ◌||◌, map, true, false, Ok, IfOk, IfErr};
ghost use Rattle.std.specs.String.{string_bytes};
ghost use Rattle.asc_calls.specs.World.{outside_of};
ghost use Rattle.asc_words.specs.Line.{line_of, IsWithin};
ghost use Rattle.asc_top.specs.Numbers.{asks_for_threads, is_batch};
ghost use Rattle.asc_top.specs.Answered.{Headline, IsAnswerFor, IsAnswerTo, around};
ghost use Rattle.asc_top.specs.Reported.{IsReported, report_with};
ghost use Rattle.asc_top.specs.Shown.{IsShownFor};

use crate::batch::batch;
use crate::make::make;
use crate::run::{run_alone, run_beside};
use crate::save::save;
use crate::trial::{trial_alone, trial_beside};
use asc_calls::Devices;
use asc_outside::{Failed, Gate, Sink, Source, Steps, Store, put_all};
use asc_words::{Answer, Conclusion, Line, parse, text};
use std::alloc::Global;
use std::sync::Wait;
use std::sync::ledger::Ledger;
use std::thread::Threads;

/// Does what the words of a command line ask for, over the outside that is handed in, and puts the line of the answer to
/// report. It gives the devices back.
///
/// The words are the program's own name, a subcommand and its arguments (`asc_words::parse`):
///
/// - `run` runs an image of the store;
/// - `save` runs one, and puts the entries that its run leaves to out;
/// - `make` puts a generated image to out;
/// - `trial` runs one, and puts a text on it to out;
/// - `batch` runs an image of the store over several inputs of the store, and puts lines on each run to report.
///
/// Where a line has workers, they run in threads of their own beside the run, and their end is waited for. In rounds there
/// are threads at a visit alone, and the visit waits for them. The gate is passed at the points of all these, and at those
/// of a run that has workers beside it.
///
/// The answer is the first of these that has a cause. Want of memory may come before or among them.
///
/// 1. The words are wrong.
/// 2. The store fails at the image, or the image is too long or none.
/// 3. The store fails at the file of saved entries, or that is refused. Or it fails at an input of a batch, or that is too
///    long.
/// 4. The run has ended, or all runs, or the text was written.
///
/// Where report fails, the answer is ReportFault in place of that one.
pub fn top<
    T: Threads + Wait + Sync + Copy + Drop + Send,
    F: Store,
    I: Source,
    O: Sink,
    E: Sink,
    R: Sink,
    G: Gate + Sync,
    L: Ledger,
>(
    rt: &T,
    alloc: Global,
    words: &[String],
    store: &mut F,
    devices: Devices<I, O, E>,
    report: &mut R,
    gate: &G,
    steps: &mut Steps<L>,
) -> (Answer, Devices<I, O, E>)
    // The headline. Where what the words ask for is told, no device fails and no memory is wanting, all that comes of it
    // is what the definitions say.
    ensures headline { Headline (line_of (map string_bytes words.now))
        (around (F.files store.old) (F.asked store.old) (F.faults store.old) (outside_of devices steps.old))
        (around (F.files store.new) (F.asked store.new) (F.faults store.new) (outside_of result.1 steps.new)) result.0 }

    // There is a conclusion of which all holds that an answer to these words promises, and its text was put to report:
    // its answer is the result. Or report failed, and the result is ReportFault. A batch puts the lines of its runs before.
    ensures answer { IsShownFor (line_of (map string_bytes words.now))
        (around (F.files store.old) (F.asked store.old) (F.faults store.old) (outside_of devices steps.old))
        (around (F.files store.new) (F.asked store.new) (F.faults store.new) (outside_of result.1 steps.new))
        (report_with (R.given report.old) (R.faults report.old)) (report_with (R.given report.new) (R.faults report.new)) result.0 }
{
    let mut devices = devices;
    match conclusion_alone(alloc, words, store, &mut devices, steps) {
        Ok(conclusion) => (reported(conclusion, report), devices),
        Err(line) => answer_of_line(rt, alloc, line, store, devices, report, gate, steps),
    }
}

/// Does what a line asks for that is a batch's or asks for threads, and puts its lines to report.
fn answer_of_line<
    T: Threads + Wait + Sync + Copy + Drop + Send,
    F: Store,
    I: Source,
    O: Sink,
    E: Sink,
    R: Sink,
    G: Gate + Sync,
    L: Ledger,
>(
    rt: &T,
    alloc: Global,
    line: Line,
    store: &mut F,
    devices: Devices<I, O, E>,
    report: &mut R,
    gate: &G,
    steps: &mut Steps<L>,
) -> (Answer, Devices<I, O, E>)
    requires within { IsWithin line }
    requires some { (asks_for_threads line || is_batch line) ≡ true }
    ensures { IsShownFor (Ok line)
        (around (F.files store.old) (F.asked store.old) (F.faults store.old) (outside_of devices steps.old))
        (around (F.files store.new) (F.asked store.new) (F.faults store.new) (outside_of result.1 steps.new))
        (report_with (R.given report.old) (R.faults report.old)) (report_with (R.given report.new) (R.faults report.new)) result.0 }
{
    match line {
        Line::Batch(line) => batch(rt, alloc, &line, store, devices, report, gate, steps),
        line => {
            let mut devices = devices;
            let conclusion = conclusion_of_beside(
                rt,
                alloc,
                line,
                store,
                &mut devices,
                gate,
                steps,
            );
            (reported(conclusion, report), devices)
        }
    }
}

/// Puts a conclusion's text to report, and gives its answer, or ReportFault where report fails. Where there is no text
/// report isn't asked. No allocator is handed in.
pub fn reported<R: Sink>(conclusion: Conclusion, report: &mut R) -> Answer
    requires { conclusion.answer ≢ Answer.ReportFault }
    ensures { IsReported
        (report_with (R.given report.old) (R.faults report.old)) (report_with (R.given report.new) (R.faults report.new)) conclusion result }
{
    let mut room = [0; 512];
    let length = text(&conclusion, &mut room);
    match put_all(report, &room[..length]) {
        Ok(()) => conclusion.answer,
        Err(Failed) => Answer::ReportFault,
    }
}

/// What the words of a command line come to that ask for no thread, before it is reported. They ask for a run or a trial
/// without workers, saved entries or a generated image, or they are wrong. It starts no thread and waits for none.
///
/// Where the words ask for workers, beside the run or in rounds, or for a batch, it answers the line, and nothing was done.
pub fn conclusion_alone<F: Store, I: Source, O: Sink, E: Sink, L: Ledger>(
    alloc: Global,
    words: &[String],
    store: &mut F,
    devices: &mut Devices<I, O, E>,
    steps: &mut Steps<L>,
) -> Result<Conclusion, Line>
    // All holds of the conclusion that an answer to these words promises.
    ensures alone { IfOk result (IsAnswerTo (map string_bytes words.now)
        (around (F.files store.old) (F.asked store.old) (F.faults store.old) (outside_of devices.old steps.old))
        (around (F.files store.new) (F.asked store.new) (F.faults store.new) (outside_of devices.new steps.new))) }

    // Or the words are a line that asks for threads, or a batch's, its numbers are within their bounds, and nothing was
    // done.
    ensures beside { IfErr result (λ line. (line_of (map string_bytes words.now) ≡ Ok line)
        × ((asks_for_threads line || is_batch line) ≡ true)) }
    ensures within { IfErr result IsWithin }
    ensures nothing { IfErr result (λ _. (store.new ≡ store.old) × (devices.new ≡ devices.old) × (steps.new ≡ steps.old)) }
{
    match parse(alloc, words) {
        Err(fault) => Ok(Conclusion::of(Answer::from(fault))),
        Ok(line) if asks_for_threads(&line) || is_batch(&line) => Err(line),
        Ok(line) => Ok(conclusion_of_alone(alloc, line, store, devices, steps)),
    }
}

/// Whether a line asks for threads.
fn asks_for_threads(line: &Line) -> bool
    ensures { result ≡ asks_for_threads line.now }
{
    match line {
        Line::Run(run) => run.workers > 0 || run.lanes > 0,
        Line::Save(_) | Line::Make { .. } => false,
        Line::Trial { workers, lanes, .. } => *workers > 0 || *lanes > 0,
        Line::Batch(line) => line.run.workers > 0,
    }
}

/// Whether a line is a batch's.
fn is_batch(line: &Line) -> bool
    ensures { result ≡ is_batch line.now }
{
    matches!(line, Line::Batch(_))
}

/// What a line comes to that asks for no thread, before it is reported.
fn conclusion_of_alone<F: Store, I: Source, O: Sink, E: Sink, L: Ledger>(
    alloc: Global,
    line: Line,
    store: &mut F,
    devices: &mut Devices<I, O, E>,
    steps: &mut Steps<L>,
) -> Conclusion
    requires within { IsWithin line }
    requires none { asks_for_threads line ≡ false }
    requires one { is_batch line ≡ false }
    ensures { IsAnswerFor (Ok line)
        (around (F.files store.old) (F.asked store.old) (F.faults store.old) (outside_of devices.old steps.old))
        (around (F.files store.new) (F.asked store.new) (F.faults store.new) (outside_of devices.new steps.new)) result }
{
    match line {
        Line::Run(line) => run_alone(alloc, &line, store, devices, steps),
        Line::Save(line) => save(alloc, &line, store, devices.out_mut(), steps),
        Line::Make { n } => make(alloc, n, devices.out_mut()),
        Line::Trial { n, .. } => trial_alone(alloc, n, devices.out_mut(), steps),
        Line::Batch(_) => unreachable!(),
    }
}

/// What a line comes to that asks for threads, before it is reported.
fn conclusion_of_beside<
    T: Threads + Wait + Sync + Copy + Drop + Send,
    F: Store,
    I: Source,
    O: Sink,
    E: Sink,
    G: Gate + Sync,
    L: Ledger,
>(
    rt: &T,
    alloc: Global,
    line: Line,
    store: &mut F,
    devices: &mut Devices<I, O, E>,
    gate: &G,
    steps: &mut Steps<L>,
) -> Conclusion
    requires within { IsWithin line }
    requires some { asks_for_threads line ≡ true }
    requires one { is_batch line ≡ false }
    ensures { IsAnswerFor (Ok line)
        (around (F.files store.old) (F.asked store.old) (F.faults store.old) (outside_of devices.old steps.old))
        (around (F.files store.new) (F.asked store.new) (F.faults store.new) (outside_of devices.new steps.new)) result }
{
    match line {
        Line::Run(line) => run_beside(rt, alloc, &line, store, devices, gate, steps),
        Line::Save(_) | Line::Make { .. } | Line::Batch(_) => unreachable!(),
        Line::Trial { n, workers, lanes } => {
            trial_beside(rt, alloc, n, workers, lanes, devices.out_mut(), gate, steps)
        }
    }
}
