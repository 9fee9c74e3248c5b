//! Answers a question of the run of an image.
//!
//!     asc_show entry IMAGE ADDRESS VISIT [OPTIONS]
//!     asc_show miss IMAGE ADDRESS VISIT [OPTIONS]
//!     asc_show at IMAGE STEPS [OPTIONS]
//!     asc_show profile [--all] IMAGE [OPTIONS]
//!     asc_show seek IMAGE [OPTIONS]
//!
//! `entry` runs IMAGE to where it stands at ADDRESS (hexadecimal digits) for the VISITth time, and traces a lap from
//! there: it shows what the lap's entry reads and writes. `miss` guesses that visit from the two before it, as a worker
//! would, and shows which of the places that are read first were guessed wrong. `at` shows the registers after STEPS
//! steps. `profile` shows how often the addresses are met that a step led back to, or with `--all` all that are met.
//! `seek` runs IMAGE as `asc run --seek` would without workers, and shows the address at which it was visited last (`none`
//! where there were not two visits), how often it was visited, how often it jumped, and how many steps were jumped over.
//!
//! OPTIONS are those of `asc run`. Those that a question doesn't need have to be right, and mean nothing there; `--pc` is
//! refused where an ADDRESS is given, and `--seek` is refused by `seek`, which adds it. With `--workers`, `seek` starts none,
//! but a lap of the address must be as long as `asc run` has it beside workers.
#![tactic(auto)]

ghost use Rattle.std.specs.Prelude.{◌≡◌, ◌<◌, map};
ghost use Rattle.std.specs.Process.{exit_status};
ghost use Rattle.std.specs.String.{string_bytes};
ghost use Rattle.asc_show.specs.Status.{IsStatusFor, IsStatusOf, IsStatusOver};

use asc_inspect::{Answer, show};
use asc_outside::{Sink, Steps, put_all};
use asc_streams::{FileStore, StreamSink, StreamSource};
use asc_words::given_words;
use std::env::Args;
use std::marker::Brand;
use std::process::ExitCode;
use std::sync::ledger::{Blank, Ledger};
use std::{env, io};

fn main(rt: HostRuntime) -> ExitCode {
    program(&rt, env::args(&rt))
}

/// Shows what the words that the system gave ask for, or refuses them, and gives the exit status.
fn program(rt: &HostRuntime, given: io::Result<Args>) -> ExitCode
    ensures { IsStatusFor given (exit_status result) }
{
    match given_words(rt.alloc(), given) {
        Ok(words) => run::<Brand>(rt, &words, Blank::new(1)),
        Err(fault) => tell(Answer::from(fault), &mut StreamSink::new(rt.stderr())),
    }
}

/// Shows what the words ask for over the system's files and streams, of which nothing is told, and gives the exit status.
/// The ledger is the one that counts the guest's steps.
fn run<L: Ledger>(rt: &HostRuntime, words: &[String], blank: Blank) -> ExitCode
    requires name { blank.name ≡ L.name }
    requires parts { blank.parts ≡ L.parts }
    requires some { 0 < L.parts }
    ensures { IsStatusOver (map string_bytes words.now) (exit_status result) }
{
    let (answer, _) = show(
        rt.alloc(),
        words,
        &mut FileStore::new(rt),
        StreamSource::new(rt.stdin()),
        &mut StreamSink::new(rt.stdout()),
        &mut Steps::<L>::new(blank),
    );
    tell(answer, &mut StreamSink::new(rt.stderr()))
}

/// Puts the line of an answer to report, and gives its exit status. Where report fails, nothing more is said.
fn tell<R: Sink>(answer: Answer, report: &mut R) -> ExitCode
    ensures { IsStatusOf (R.given report.old) (R.given report.new) (R.faults report.old) (R.faults report.new)
        answer (exit_status result) }
{
    let _ = put_all(report, answer.line().as_slice());
    ExitCode::from(answer.code())
}
