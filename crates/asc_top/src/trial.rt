//! `asc trial`.
ghost use Rattle.std.specs.Prelude.{◌≡◌, ◌<◌, ◌≤◌, List, Option, Ok, ℕ, ◌+◌, ◌^◌, IfSome};
ghost use Rattle.asc_outside.specs.Outside.{File, Given};
ghost use Rattle.asc_calls.specs.World.{faults, outside};
ghost use Rattle.asc_top.specs.Program.{trial_run};
ghost use Rattle.asc_top.specs.Numbers.{exit_of, told_by_trial};
ghost use Rattle.asc_top.specs.Ran.{IsThreaded};
ghost use Rattle.asc_top.specs.Answered.{IsAnswerFor, around};
ghost use Rattle.asc_top.specs.Reported.{EndsTrial, IsPut};

use crate::run::{run_file_alone, run_file_beside};
use asc_calls::no_devices;
use asc_make::image;
use asc_model::{MOST_WORKERS, Version};
use asc_outside::{Failed, Gate, Sink, Steps, put_all};
use asc_words::{Answer, Conclusion, Counts, FileName, Line, RunLine, TrialRun, trial_text};
use std::alloc::Global;
use std::sync::Wait;
use std::sync::ledger::Ledger;
use std::thread::Threads;

/// Runs the generated image of a number without workers, and puts a text on its run to out. The program has no input,
/// and what it writes is only counted.
pub(crate) fn trial_alone<O: Sink, L: Ledger>(
    alloc: Global,
    n: u64,
    out: &mut O,
    steps: &mut Steps<L>,
) -> Conclusion
    ensures { (files : Option (List File)) (asked : Option (List (List ℕ))) (store_faults : ℕ)
        (left : Option (List ℕ)) (err : Given) (input_faults err_faults : ℕ)
        → IsAnswerFor (Ok (Line.Trial n 0 0))
        (around files asked store_faults
        (outside left (O.given out.old) err steps.old (faults input_faults (O.faults out.old) err_faults)))
        (around files asked store_faults
        (outside left (O.given out.new) err steps.new (faults input_faults (O.faults out.new) err_faults))) result }
{
    let Ok(image) = image(alloc, n) else {
        return Conclusion::of(Answer::Memory);
    };
    let line = trial_run(alloc, 0);
    let mut guest = no_devices(alloc);
    let ran = run_file_alone(alloc, &line, &image, &mut guest, steps);
    let (_, output, _) = guest.into_parts();
    end_trial(n, 0, &ran, output.count(), out)
}

/// Runs the generated image of a number with workers, or in rounds with lanes, and puts a text on its run to out, as
/// `trial_alone`.
pub(crate) fn trial_beside<
    T: Threads + Wait + Sync + Copy + Drop + Send,
    O: Sink,
    G: Gate + Sync,
    L: Ledger,
>(
    rt: &T,
    alloc: Global,
    n: u64,
    workers: usize,
    lanes: usize,
    out: &mut O,
    gate: &G,
    steps: &mut Steps<L>,
) -> Conclusion
    requires threads { IsThreaded workers lanes }
    requires few { workers ≤ MOST_WORKERS }
    ensures { (files : Option (List File)) (asked : Option (List (List ℕ))) (store_faults : ℕ)
        (left : Option (List ℕ)) (err : Given) (input_faults err_faults : ℕ)
        → IsAnswerFor (Ok (Line.Trial n workers lanes))
        (around files asked store_faults
        (outside left (O.given out.old) err steps.old (faults input_faults (O.faults out.old) err_faults)))
        (around files asked store_faults
        (outside left (O.given out.new) err steps.new (faults input_faults (O.faults out.new) err_faults))) result }
{
    let Ok(image) = image(alloc, n) else {
        return Conclusion::of(Answer::Memory);
    };
    let line = trial_run(alloc, workers);
    let mut guest = no_devices(alloc);
    let ran = run_file_beside(rt, alloc, &line, lanes, &image, &mut guest, gate, steps);
    let (_, output, _) = guest.into_parts();
    end_trial(n, workers, &ran, output.count(), out)
}

/// What a trial comes to, whose run came to `ran` and put so many bytes: where its guest ended, a text on that is put to
/// out.
fn end_trial<O: Sink>(n: u64, workers: usize, ran: &Conclusion, put: u64, out: &mut O) -> Conclusion
    requires { IfSome ran.now.counts (λ counts. counts.run.executed + counts.run.skipped < 2 ^ 64) }
    ensures { EndsTrial n workers put (exit_of ran.now) ran.now.answer
        (O.given out.old) (O.given out.new) (O.faults out.old) (O.faults out.new) result }
{
    let Some((status, counts)) = exit_of(ran) else {
        return Conclusion::of(ran.answer);
    };
    let trial = TrialRun {
        n,
        status,
        steps: counts.run.executed + counts.run.skipped,
        output: put,
        counts: told_by_trial(workers, counts),
    };
    Conclusion::of(tell(&trial, counts.refused, out))
}

/// The code with which the guest ended, and the numbers of the run, where it ended.
fn exit_of(conclusion: &Conclusion) -> Option<(u8, Counts)>
    ensures { result ≡ exit_of conclusion.now }
{
    match (conclusion.answer, conclusion.counts) {
        (Answer::Exit(status), Some(counts)) => Some((status, counts)),
        _ => None,
    }
}

/// Puts the text of a trial to out, whose helper was refused memory so often.
fn tell<O: Sink>(trial: &TrialRun, refused: u64, out: &mut O) -> Answer
    ensures { IsPut trial.now refused (O.given out.old) (O.given out.new) (O.faults out.old) (O.faults out.new) result }
{
    let mut room = [0; 512];
    let length = trial_text(trial, &mut room);
    match put_all(out, &room[..length]) {
        Ok(()) => Answer::Done(refused),
        Err(Failed) => Answer::WriteFault,
    }
}

/// The numbers that a trial tells: none where workers went beside its run.
fn told_by_trial(workers: usize, counts: Counts) -> Option<Counts>
    ensures { result ≡ told_by_trial workers counts }
{
    match workers {
        0 => Some(counts),
        _ => None,
    }
}

/// How the image of a trial is run with so many workers beside it.
fn trial_run(alloc: Global, workers: usize) -> RunLine
    ensures { result ≡ trial_run workers }
{
    RunLine {
        image: FileName::new(String::new(alloc)),
        memory: 128,
        limit: 1_000_000,
        version: Version::Two,
        last: false,
        stride: true,
        pc: Some(0x10018),
        profile: 4096,
        least: 4,
        laps: 1,
        span: 100_000,
        ahead: 2,
        workers,
        lanes: 0,
        queue: 256,
        join: false,
        seek: false,
        report: true,
        load: None,
    }
}
