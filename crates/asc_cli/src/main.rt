//! The program: the words of its command line are run over the files and the standard streams of the system.
#![tactic(auto)]

ghost use Rattle.std.specs.Prelude.{◌≡◌, ◌<◌, map};
ghost use Rattle.std.specs.Process.{exit_status};
ghost use Rattle.std.specs.String.{string_bytes};
ghost use Rattle.asc_calls.specs.World.{outside_of};
ghost use Rattle.asc_words.specs.Answer.{conclusion_of};
ghost use Rattle.asc_words.specs.Answer.{refusal_of};
ghost use Rattle.asc_top.specs.Answered.{around};
ghost use Rattle.asc_top.specs.Reported.{report_with};
ghost use Rattle.asc_cli.specs.Status.{IsStatus, IsStatusFor, IsStatusOf, IsStatusOver};

use asc_calls::Devices;
use asc_outside::{Gate, Open, Sink, Source, Steps, Store};
use asc_streams::{FileStore, StreamSink, StreamSource};
use asc_top::{reported, top};
use asc_words::{Answer, Conclusion, LineFault, given_words};
use std::alloc::Global;
use std::env::Args;
use std::marker::Brand;
use std::process::ExitCode;
use std::sync::Wait;
use std::sync::ledger::{Blank, Ledger};
use std::thread::Threads;
use std::{env, io};

fn main(rt: HostRuntime) -> ExitCode {
    program(&rt, &rt, env::args(&rt))
}

/// Runs the words that the system gave, or refuses them, and gives the exit status. Its threads come from a handle of
/// their own.
fn program<T: Threads + Wait + Sync + Copy + Drop + Send>(
    rt: &HostRuntime,
    threads: &T,
    given: io::Result<Args>,
) -> ExitCode
    ensures { IsStatusFor given (exit_status result) }
{
    match given_words(rt.alloc(), given) {
        Ok(words) => run::<_, Brand>(rt, threads, &words, Blank::new(1)),
        Err(fault) => refuse(fault, &mut StreamSink::new(rt.stderr())),
    }
}

/// Reports why words were not read, and gives the exit status.
fn refuse<R: Sink>(fault: LineFault, report: &mut R) -> ExitCode
    ensures { IsStatusOf (report_with (R.given report.old) (R.faults report.old))
        (report_with (R.given report.new) (R.faults report.new)) (conclusion_of (refusal_of fault)) (exit_status result) }
{
    ExitCode::from(reported(Conclusion::of(Answer::from(fault)), report).code())
}

/// Runs the words over the system's files and streams, of which nothing is told, and gives the exit status. The ledger is
/// the one that counts the guest's steps.
fn run<T: Threads + Wait + Sync + Copy + Drop + Send, L: Ledger>(
    rt: &HostRuntime,
    threads: &T,
    words: &[String],
    blank: Blank,
) -> ExitCode
    requires name { blank.name ≡ L.name }
    requires parts { blank.parts ≡ L.parts }
    requires some { 0 < L.parts }
    ensures { IsStatusOver (map string_bytes words.now) (exit_status result) }
{
    let devices = Devices::new(
        StreamSource::new(rt.stdin()),
        StreamSink::new(rt.stdout()),
        StreamSink::new(rt.stderr()),
    );
    let (status, _) = status(
        threads,
        rt.alloc(),
        words,
        &mut FileStore::new(rt),
        devices,
        &mut StreamSink::new(rt.stderr()),
        &Open,
        &mut Steps::<L>::new(blank),
    );
    status
}

/// Runs the words over an outside that is handed in, and gives the exit status, and the devices back.
fn status<
    T: Threads + Wait + Sync + Copy + Drop + Send,
    F: Store,
    I: Source,
    O: Sink,
    E: Sink,
    R: Sink,
    G: Gate + Sync,
    L: Ledger,
>(
    rt: &T,
    alloc: Global,
    words: &[String],
    store: &mut F,
    devices: Devices<I, O, E>,
    report: &mut R,
    gate: &G,
    steps: &mut Steps<L>,
) -> (ExitCode, Devices<I, O, E>)
    // All that the program promises holds of an answer, which has the status as its code.
    ensures { IsStatus (map string_bytes words.now)
        (around (F.files store.old) (F.asked store.old) (F.faults store.old) (outside_of devices steps.old))
        (around (F.files store.new) (F.asked store.new) (F.faults store.new) (outside_of result.1 steps.new))
        (report_with (R.given report.old) (R.faults report.old))
        (report_with (R.given report.new) (R.faults report.new)) (exit_status result.0) }
{
    let (answer, devices) = top(rt, alloc, words, store, devices, report, gate, steps);
    (ExitCode::from(answer.code()), devices)
}
