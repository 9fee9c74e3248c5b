//! The program over an outside in memory, and what must come of it.
ghost use Rattle.std.specs.Prelude.{◌≡◌, ◌<◌};

use asc_calls::Devices;
use asc_outside::{Gate, ListSink, ListSource, ListStore, Open, Steps};
use asc_top::top;
use asc_words::Answer;
use std::alloc::{AllocError, Global};
use std::marker::Brand;
use std::process::Abort;
use std::sync::Wait;
use std::sync::ledger::{Blank, Ledger};
use std::thread::Threads;

/// What the input gives, how the devices move it, and which of their calls fail.
#[derive(Clone, Copy)]
pub(crate) struct Outside {
    pub(crate) input: &'static str,
    /// The most bytes that the input, out, err and the report move in one call.
    pub(crate) most: usize,
    /// The bytes for which out and err each have room.
    pub(crate) room: usize,
    /// The numbers of the calls that fail, of the store, the input, out, err and the report, from 1; 0 is none.
    pub(crate) fails: [u64; 5],
}

/// Nothing fails, and there is no input.
pub(crate) const SOUND: Outside = Outside {
    input: "",
    most: 3,
    room: 64,
    fails: [0; 5],
};

/// What must come of the words of a command line.
#[derive(Clone, Copy)]
pub(crate) struct Want {
    pub(crate) answer: Answer,
    /// How often the store is asked.
    pub(crate) asked: usize,
    pub(crate) out: &'static str,
    pub(crate) err: &'static str,
    pub(crate) report: &'static str,
}

/// The program ends with 0, and puts nothing.
pub(crate) const QUIET: Want = Want {
    answer: Answer::Exit(0),
    asked: 1,
    out: "",
    err: "",
    report: "",
};

/// The devices of the guest.
type Guest = Devices<ListSource, ListSink, ListSink>;

/// What came of them.
#[derive(Drop)]
pub(crate) struct Got {
    pub(crate) answer: Answer,
    store: ListStore,
    guest: Guest,
    pub(crate) report: ListSink,
}

impl Got {
    /// What out was given.
    pub(crate) fn out(&self) -> &[u8] {
        self.guest.out().bytes()
    }

    /// What err was given.
    pub(crate) fn err(&self) -> &[u8] {
        self.guest.err().bytes()
    }

    /// How often the store was asked for a file.
    pub(crate) fn asked<R: Abort>(&self, rt: &R) -> usize {
        self.store.asked().expect(rt, "memory for the names").len()
    }
}

/// Runs the words of a command line, with one space between two words, where the store has one file, `image`.
pub(crate) fn run_line<R: Abort + Threads + Wait + Sync + Copy + Drop + Send>(
    rt: &R,
    alloc: Global,
    line: &str,
    file: Vec<u8>,
    outside: &Outside,
) -> Result<Got, AllocError> {
    run_gated(rt, alloc, line, only_image(alloc, file)?, outside, &Open)
}

/// The files of a store that has one, `image`.
pub(crate) fn only_image(
    alloc: Global,
    file: Vec<u8>,
) -> Result<Vec<(String, Vec<u8>)>, AllocError> {
    let mut files = Vec::new(alloc);
    files.push((String::from_str(alloc, "image")?, file))?;
    Ok(files)
}

/// The same with any files, and a gate, which may hold up the run and its workers.
pub(crate) fn run_gated<R: Abort + Threads + Wait + Sync + Copy + Drop + Send, G: Gate + Sync>(
    rt: &R,
    alloc: Global,
    line: &str,
    files: Vec<(String, Vec<u8>)>,
    outside: &Outside,
    gate: &G,
) -> Result<Got, AllocError> {
    let mut words = Vec::new(alloc);
    for word in line.split(' ') {
        words.push(String::from_str(alloc, word)?)?;
    }
    run_over::<Brand, _, _>(rt, alloc, &words, files, outside, gate, Blank::new(1))
}

/// Runs the words of a command line in the same way, and compares what came of them with what must.
pub(crate) fn check<R: Abort + Threads + Wait + Sync + Copy + Drop + Send>(
    rt: &R,
    alloc: Global,
    line: &str,
    file: Vec<u8>,
    outside: &Outside,
    want: &Want,
) -> Result<(), AllocError> {
    let got = run_line(rt, alloc, line, file, outside)?;
    let put = (got.out(), got.err(), got.report.bytes());
    let wanted = (
        want.out.as_bytes(),
        want.err.as_bytes(),
        want.report.as_bytes(),
    );
    assert_eq!(rt; (got.answer, put), (want.answer, wanted), "at {line}");
    let asked = got.store.asked().expect(rt, "memory for the names");
    assert_eq!(rt; asked.len(), want.asked, "at {line}");
    for name in asked {
        assert!(rt;
            line.split(' ').any(|word| word == name.as_str()),
            "{name} at {line}"
        );
    }
    Ok(())
}

/// What is added to the words of a line: guesses, with two workers and without any, and the numbers. Where an address is
/// sought none is added.
static GUESSING: [&str; 4] = [
    " --guess both --workers 2",
    " --guess both --report",
    " --seek --report",
    " --guess both --workers 2 --report",
];

/// The same, and then once more with guesses, which change neither the answer nor what is put. An address may be added.
/// Where the numbers are reported too, the report begins as it must; that is left out where the report fails.
pub(crate) fn check_guessed<R: Abort + Threads + Wait + Sync + Copy + Drop + Send>(
    rt: &R,
    alloc: Global,
    line: &str,
    address: &str,
    file: &[u8],
    outside: &Outside,
    want: &Want,
) -> Result<(), AllocError> {
    check(rt, alloc, line, file.to_vec(alloc)?, outside, want)?;
    let is_sound = outside.fails[4] == 0;
    for guessing in GUESSING {
        let mut words = String::from_str(alloc, line)?;
        if !guessing.contains("--seek") {
            words.push_str(address)?;
        }
        words.push_str(guessing)?;
        if !words.contains("--report") {
            check(rt, alloc, &words, file.to_vec(alloc)?, outside, want)?;
        } else if is_sound {
            check_reported(rt, alloc, &words, file.to_vec(alloc)?, outside, want)?;
        }
    }
    Ok(())
}

/// Runs the words of a command line, and compares what came of them with what must, and of the report how it begins.
fn check_reported<R: Abort + Threads + Wait + Sync + Copy + Drop + Send>(
    rt: &R,
    alloc: Global,
    line: &str,
    file: Vec<u8>,
    outside: &Outside,
    want: &Want,
) -> Result<(), AllocError> {
    let got = run_line(rt, alloc, line, file, outside)?;
    let put = (got.out(), got.err());
    let wanted = (want.out.as_bytes(), want.err.as_bytes());
    assert_eq!(rt; (got.answer, put), (want.answer, wanted), "at {line}");
    assert!(rt;
        got.report.bytes().starts_with(want.report.as_bytes()),
        "at {line}"
    );
    Ok(())
}

/// Sees that a line without workers comes to the same in rounds, to each byte.
pub(crate) fn check_rounds<R: Abort + Threads + Wait + Sync + Copy + Drop + Send>(
    rt: &R,
    alloc: Global,
    line: &str,
    file: &[u8],
) -> Result<(), AllocError> {
    let alone = run_line(rt, alloc, line, file.to_vec(alloc)?, &SOUND)?;
    let words = format!(in alloc; "{line} --workers 2 --rounds")?;
    check_same(rt, alloc, &words, file.to_vec(alloc)?, &alone)
}

/// Runs the words of a command line, from which the same must come.
fn check_same<R: Abort + Threads + Wait + Sync + Copy + Drop + Send>(
    rt: &R,
    alloc: Global,
    line: &str,
    file: Vec<u8>,
    other: &Got,
) -> Result<(), AllocError> {
    let got = run_line(rt, alloc, line, file, &SOUND)?;
    let put = (got.out(), got.err(), got.report.bytes());
    let others = (other.out(), other.err(), other.report.bytes());
    assert_eq!(rt; (got.answer, put), (other.answer, others), "at {line}");
    Ok(())
}

fn run_over<L: Ledger, R: Abort + Threads + Wait + Sync + Copy + Drop + Send, G: Gate + Sync>(
    rt: &R,
    alloc: Global,
    words: &[String],
    files: Vec<(String, Vec<u8>)>,
    outside: &Outside,
    gate: &G,
    blank: Blank,
) -> Result<Got, AllocError>
    requires name { blank.name ≡ L.name }
    requires parts { blank.parts ≡ L.parts }
    requires some { 0 < L.parts }
{
    let most = outside.most.max(1);
    let [store_fails, _, _, _, report_fails] = outside.fails;
    let mut store = ListStore::new(files, vec![in alloc; store_fails; 1]?);
    let mut report = sink(rt, alloc, 4096, most, report_fails)?;
    let (answer, guest) = top(
        rt,
        alloc,
        words,
        &mut store,
        guest_of(rt, alloc, outside)?,
        &mut report,
        gate,
        &mut Steps::<L>::new(blank),
    );
    Ok(Got {
        answer,
        store,
        guest,
        report,
    })
}

/// The devices of the guest.
fn guest_of<R: Abort>(rt: &R, alloc: Global, outside: &Outside) -> Result<Guest, AllocError> {
    let most = outside.most.max(1);
    let [_, input_fails, out_fails, err_fails, _] = outside.fails;
    let bytes = outside.input.as_bytes().to_vec(alloc)?;
    let input = ListSource::new(bytes, most, vec![in alloc; input_fails; 1]?);
    let out = sink(rt, alloc, outside.room, most, out_fails)?;
    let err = sink(rt, alloc, outside.room, most, err_fails)?;
    Ok(Devices::new(input, out, err))
}

fn sink<R: Abort>(
    rt: &R,
    alloc: Global,
    room: usize,
    most: usize,
    fails: u64,
) -> Result<ListSink, AllocError>
    requires { 0 < most }
{
    let fails = vec![in alloc; fails; 1]?;
    Ok(ListSink::new(alloc, room, most, fails).expect(rt, "memory"))
}
