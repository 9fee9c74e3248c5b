//! `asc batch`: one image, run over many inputs, one after the other, over one cache.
ghost use Rattle.std.specs.Prelude.{◌≡◌, ◌⊎◌, ◌+◌, ◌≤◌, ℕ, List, [], length, Option, None, Some, Ok, OnOk, IfErr, IfNone, IfOk, IfSome};
ghost use Rattle.asc_model.specs.Shape.{IsShape};
ghost use Rattle.asc_outside.specs.Outside.{PutsPart, given_after, one_more};
ghost use Rattle.asc_elf.specs.Image as loader;
ghost use Rattle.asc_calls.specs.GuestCall.{Device};
ghost use Rattle.asc_calls.specs.World.{outside_of};
ghost use Rattle.asc_run.specs.declared.walk.Ended.{Ended};
ghost use Rattle.asc_words.specs.Line.{IsBatchWithin, IsRunWithin};
ghost use Rattle.asc_words.specs.Report.{batch_text};
ghost use Rattle.asc_top.specs.Answered.{around};
ghost use Rattle.asc_top.specs.Batch.{answer_of};
ghost use Rattle.asc_top.specs.BatchAnswer.{IsBatchAnswer};
ghost use Rattle.asc_top.specs.Endings.{device_of_answer};
ghost use Rattle.asc_top.specs.Numbers.{settings_of};
ghost use Rattle.asc_top.specs.Program.{answer_at, load_of};
ghost use Rattle.asc_top.specs.Reported.{report_with};
ghost use Rattle.asc_top.specs.Runner.{BreaksOff, BreaksRuns, EndsRuns, Keeps, ReportsRun, IsRunnerFor, guest_of, outputs};

use crate::batch_files::{BatchFiles, read_batch};
use crate::program::reported;
use crate::runner::Runner;
use crate::settings::settings_of;
use asc_calls::Devices;
use asc_elf::{Image, read};
use asc_outside::{Failed, Gate, Sink, Source, Steps, Store, SureSource, put_all};
use asc_run::Walk;
use asc_words::{Answer, BatchLine, BatchRun, Conclusion, RunEnd, RunLine, batch_text};
use std::alloc::Global;
use std::sync::Wait;
use std::sync::ledger::Ledger;
use std::thread::Threads;

/// Reads the files that a batch names, and runs the image over each input in turn. Once a run has ended, its lines are put
/// to report. All memory that the runs need is taken before the first, but for states and entries that are kept. It gives
/// the devices back, of which the input is not asked.
pub(crate) fn batch<
    T: Threads + Wait + Sync + Copy + Drop + Send,
    F: Store,
    I: Source,
    O: Sink,
    E: Sink,
    R: Sink,
    G: Gate + Sync,
    L: Ledger,
>(
    rt: &T,
    alloc: Global,
    line: &BatchLine,
    store: &mut F,
    devices: Devices<I, O, E>,
    report: &mut R,
    gate: &G,
    steps: &mut Steps<L>,
) -> (Answer, Devices<I, O, E>)
    requires { IsBatchWithin line.now }
    ensures { IsBatchAnswer line.now
        (around (F.files store.old) (F.asked store.old) (F.faults store.old) (outside_of devices steps.old))
        (around (F.files store.new) (F.asked store.new) (F.faults store.new) (outside_of result.1 steps.new))
        (report_with (R.given report.old) (R.faults report.old)) (report_with (R.given report.new) (R.faults report.new))
        result.0 }
{
    let (input, out, err) = devices.into_parts();
    let mut guest = Devices::new(SureSource::new(Vec::new(alloc)), out, err);
    let answer = run_all(rt, alloc, line, store, &mut guest, report, gate, steps);
    let (_, out, err) = guest.into_parts();
    (answer, Devices::new(input, out, err))
}

/// The same, with devices whose input is put aside.
fn run_all<
    T: Threads + Wait + Sync + Copy + Drop + Send,
    F: Store,
    O: Sink,
    E: Sink,
    R: Sink,
    G: Gate + Sync,
    L: Ledger,
>(
    rt: &T,
    alloc: Global,
    line: &BatchLine,
    store: &mut F,
    devices: &mut Devices<SureSource, O, E>,
    report: &mut R,
    gate: &G,
    steps: &mut Steps<L>,
) -> Answer
    requires { IsBatchWithin line.now }
    ensures { (left : Option (List ℕ)) (input_faults : ℕ) → IsBatchAnswer line.now
        (around (F.files store.old) (F.asked store.old) (F.faults store.old) (guest_of left input_faults devices.old steps.old))
        (around (F.files store.new) (F.asked store.new) (F.faults store.new) (guest_of left input_faults devices.new steps.new))
        (report_with (R.given report.old) (R.faults report.old)) (report_with (R.given report.new) (R.faults report.new))
        result }
{
    let files = match read_batch(alloc, line, store) {
        Ok(files) => files,
        Err(answer) => return reported(Conclusion::of(answer), report),
    };
    match run_batch(rt, alloc, &line.run, files, devices, report, gate, steps) {
        Ok(()) => Answer::Done(0),
        Err(Answer::ReportFault) => Answer::ReportFault,
        Err(answer) => reported(Conclusion::of(answer), report),
    }
}

/// Runs the image of files that were read, over each of their inputs. The error is the answer where the runs were broken
/// off, or where memory is wanting for them.
fn run_batch<
    T: Threads + Wait + Sync + Copy + Drop + Send,
    O: Sink,
    E: Sink,
    R: Sink,
    G: Gate + Sync,
    L: Ledger,
>(
    rt: &T,
    alloc: Global,
    line: &RunLine,
    files: BatchFiles,
    devices: &mut Devices<SureSource, O, E>,
    report: &mut R,
    gate: &G,
    steps: &mut Steps<L>,
) -> Result<(), Answer>
    requires line { IsRunWithin line.now }
    requires unloaded { line.now.load ≡ None }
    requires loads { (image : loader.Image) × (load_of line.now files.image ≡ Ok image) × IsShape image.start.shape }
    requires inputs { (1 ≤ length files.inputs) × (length files.inputs ≤ 64) }
    ensures ended { IfOk result (λ _. (image : loader.Image) → load_of line.now files.image ≡ Ok image
        → EndsRuns line.now image files.inputs (outputs devices.old steps.old) (outputs devices.new steps.new)
        (report_with (R.given report.old) (R.faults report.old)) (report_with (R.given report.new) (R.faults report.new))) }
    ensures broken { IfErr result (λ answer. (image : loader.Image) → load_of line.now files.image ≡ Ok image
        → ((answer ≡ Answer.Memory) × (devices.new ≡ devices.old) × (steps.new ≡ steps.old)
        × (report.new ≡ report.old))
        ⊎ BreaksRuns line.now image files.inputs (outputs devices.old steps.old) (outputs devices.new steps.new)
        (report_with (R.given report.old) (R.faults report.old)) (report_with (R.given report.new) (R.faults report.new))
        answer) }
{
    let BatchFiles {
        image: file,
        mut inputs,
    } = files;
    let Ok(image) = read(&file, 1024 * line.memory, line.version) else {
        unreachable!()
    };
    run_image(
        rt,
        alloc,
        line,
        &image,
        &mut inputs,
        gate,
        devices,
        report,
        steps,
    )
}

/// Runs an image over each of these inputs. The error is as that of `run_batch`.
fn run_image<
    T: Threads + Wait + Sync + Copy + Drop + Send,
    O: Sink,
    E: Sink,
    R: Sink,
    G: Gate + Sync,
    L: Ledger,
>(
    rt: &T,
    alloc: Global,
    line: &RunLine,
    image: &Image<'_>,
    inputs: &mut [SureSource],
    gate: &G,
    devices: &mut Devices<SureSource, O, E>,
    report: &mut R,
    steps: &mut Steps<L>,
) -> Result<(), Answer>
    requires line { IsRunWithin line.now }
    requires unloaded { line.now.load ≡ None }
    requires shape { IsShape image.now.start.shape }
    requires inputs { (1 ≤ length inputs.old) × (length inputs.old ≤ 64) }
    ensures ended { IfOk result (λ _. EndsRuns line.now image.now inputs.old (outputs devices.old steps.old)
        (outputs devices.new steps.new)
        (report_with (R.given report.old) (R.faults report.old)) (report_with (R.given report.new) (R.faults report.new))) }
    ensures broken { IfErr result (λ answer. ((answer ≡ Answer.Memory) × (devices.new ≡ devices.old)
        × (steps.new ≡ steps.old) × (report.new ≡ report.old)) ⊎ BreaksRuns line.now image.now inputs.old
        (outputs devices.old steps.old) (outputs devices.new steps.new)
        (report_with (R.given report.old) (R.faults report.old)) (report_with (R.given report.new) (R.faults report.new))
        answer) }
{
    let Ok(mut walk) = Walk::new(alloc, image, settings_of(line)) else {
        return Err(Answer::Memory);
    };
    run_walk(
        rt, alloc, line, image, &mut walk, inputs, gate, devices, report, steps,
    )
}

/// Opens what the runs of a walk need, and runs its image over each of these inputs. The error is as that of `run_batch`.
fn run_walk<
    T: Threads + Wait + Sync + Copy + Drop + Send,
    O: Sink,
    E: Sink,
    R: Sink,
    G: Gate + Sync,
    L: Ledger,
>(
    rt: &T,
    alloc: Global,
    line: &RunLine,
    image: &Image<'_>,
    walk: &mut Walk,
    inputs: &mut [SureSource],
    gate: &G,
    devices: &mut Devices<SureSource, O, E>,
    report: &mut R,
    steps: &mut Steps<L>,
) -> Result<(), Answer>
    requires line { IsRunWithin line.now }
    requires unloaded { line.now.load ≡ None }
    requires shape { IsShape image.now.start.shape }
    requires walk { walk.old.state.shape ≡ image.now.start.shape }
    requires settings { walk.old.settings ≡ settings_of line.now }
    requires inputs { (1 ≤ length inputs.old) × (length inputs.old ≤ 64) }
    ensures ended { IfOk result (λ _. EndsRuns line.now image.now inputs.old (outputs devices.old steps.old)
        (outputs devices.new steps.new)
        (report_with (R.given report.old) (R.faults report.old)) (report_with (R.given report.new) (R.faults report.new))) }
    ensures broken { IfErr result (λ answer. ((answer ≡ Answer.Memory) × (devices.new ≡ devices.old)
        × (steps.new ≡ steps.old) × (report.new ≡ report.old)) ⊎ BreaksRuns line.now image.now inputs.old
        (outputs devices.old steps.old) (outputs devices.new steps.new)
        (report_with (R.given report.old) (R.faults report.old)) (report_with (R.given report.new) (R.faults report.new))
        answer) }
{
    let Ok(mut runner) = Runner::open(rt, alloc, line, walk.shape(), inputs.len()) else {
        return Err(Answer::Memory);
    };
    run_inputs(
        rt,
        alloc,
        line,
        image,
        walk,
        &mut runner,
        inputs,
        gate,
        devices,
        report,
        steps,
    )
}

/// Runs an image over each of these inputs, and puts the lines of each run to report once it has ended.
fn run_inputs<
    T: Threads + Wait + Sync + Copy + Drop + Send,
    O: Sink,
    E: Sink,
    R: Sink,
    G: Gate + Sync,
    L: Ledger,
>(
    rt: &T,
    alloc: Global,
    line: &RunLine,
    image: &Image<'_>,
    walk: &mut Walk,
    runner: &mut Runner<T>,
    inputs: &mut [SureSource],
    gate: &G,
    devices: &mut Devices<SureSource, O, E>,
    report: &mut R,
    steps: &mut Steps<L>,
) -> Result<(), Answer>
    requires line { IsRunWithin line.now }
    requires shape { walk.old.state.shape ≡ image.now.start.shape }
    requires settings { walk.old.settings ≡ settings_of line.now }
    requires serves { IsRunnerFor line.now (length inputs.old) runner.old }
    requires empty { Keeps line.now image.now.start.shape [] runner.old }
    ensures ended { IfOk result (λ _. EndsRuns line.now image.now inputs.old (outputs devices.old steps.old)
        (outputs devices.new steps.new)
        (report_with (R.given report.old) (R.faults report.old)) (report_with (R.given report.new) (R.faults report.new))) }
    ensures broken { IfErr result (BreaksRuns line.now image.now inputs.old (outputs devices.old steps.old)
        (outputs devices.new steps.new)
        (report_with (R.given report.old) (R.faults report.old)) (report_with (R.given report.new) (R.faults report.new))) }
{
    for number in 0..inputs.len() {
        run_input(
            rt,
            alloc,
            line,
            image,
            walk,
            runner,
            number,
            &mut inputs[number],
            gate,
            devices,
            report,
            steps,
        )?;
    }
    Ok(())
}

/// Runs an image over an input, which has this number, and puts the lines of the run to report.
fn run_input<
    T: Threads + Wait + Sync + Copy + Drop + Send,
    O: Sink,
    E: Sink,
    R: Sink,
    G: Gate + Sync,
    L: Ledger,
>(
    rt: &T,
    alloc: Global,
    line: &RunLine,
    image: &Image<'_>,
    walk: &mut Walk,
    runner: &mut Runner<T>,
    number: usize,
    input: &mut SureSource,
    gate: &G,
    devices: &mut Devices<SureSource, O, E>,
    report: &mut R,
    steps: &mut Steps<L>,
) -> Result<(), Answer>
    requires line { IsRunWithin line.now }
    requires shape { walk.old.state.shape ≡ image.now.start.shape }
    requires settings { walk.old.settings ≡ settings_of line.now }
    requires serves { (runs : ℕ) × IsRunnerFor line.now (runs + 1) runner.old }
    ensures shape { OnOk result (walk.new.state.shape ≡ image.now.start.shape) }
    ensures settings { walk.new.settings ≡ settings_of line.now }
    ensures serves { (runs : ℕ) → IsRunnerFor line.now (runs + 1) runner.old → IsRunnerFor line.now runs runner.new }
    ensures ended { IfOk result (λ _. ReportsRun line.now image.now number input.old
        runner.old runner.new (outputs devices.old steps.old) (outputs devices.new steps.new)
        (report_with (R.given report.old) (R.faults report.old)) (report_with (R.given report.new) (R.faults report.new))) }
    ensures broken { IfErr result (BreaksOff line.now image.now number input.old
        runner.old runner.new (outputs devices.old steps.old) (outputs devices.new steps.new)
        (report_with (R.given report.old) (R.faults report.old)) (report_with (R.given report.new) (R.faults report.new))) }
{
    walk.again(image);
    devices.swap_input(input);
    let conclusion = runner.run(rt, alloc, line, walk, gate, devices, steps);
    // That its input never fails.
    let _ = devices.input();
    let Some(run) = told_of(number, &conclusion, walk.count()) else {
        return Err(conclusion.answer);
    };
    report_run(&run, report)
}

/// What is told of a run of a batch, which has this number and counts so many steps. There is nothing where a device failed
/// under the guest.
fn told_of(number: usize, conclusion: &Conclusion, steps: u64) -> Option<BatchRun>
    requires { (ended : Ended) × (conclusion.now.answer ≡ answer_at ended steps) }
    ensures told { IfSome result (λ run. (run ≡ record {
      number = number;
      end = run.end;
      steps = steps;
      counts = conclusion.now.counts;
      workers = conclusion.now.workers;
    }) × (answer_of run.end steps ≡ conclusion.now.answer)) }
    ensures none { IfNone result ((device : Device) × (device_of_answer conclusion.now.answer ≡ Some device)) }
{
    let end = match conclusion.answer {
        Answer::Exit(code) => RunEnd::Exit(code),
        Answer::Limit(_) => RunEnd::Limit,
        Answer::Fault(fault, _) => RunEnd::Fault(fault),
        _ => return None,
    };
    Some(BatchRun {
        number,
        end,
        steps,
        counts: conclusion.counts,
        workers: conclusion.workers,
    })
}

/// Puts the lines of a run to report. The error is the answer where that fails.
fn report_run<R: Sink>(run: &BatchRun, report: &mut R) -> Result<(), Answer>
    ensures put { OnOk result ((R.given report.new ≡ given_after (R.given report.old) (batch_text run.now))
        × (R.faults report.new ≡ R.faults report.old)) }
    ensures failed { IfErr result (λ answer. (answer ≡ Answer.ReportFault)
        × PutsPart (R.given report.old) (R.given report.new) (batch_text run.now)
        × (R.faults report.new ≡ one_more (R.faults report.old))) }
{
    let mut room = [0; 512];
    let length = batch_text(run, &mut room);
    match put_all(report, &room[..length]) {
        Ok(()) => Ok(()),
        Err(Failed) => Err(Answer::ReportFault),
    }
}
