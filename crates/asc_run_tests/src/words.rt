//! Command lines, answers and texts.
use asc_elf::ElfFault;
use asc_model::{Fault, FaultKind, RunCounts, SaveFault, Tally, Version};
use asc_words::{
    Answer, Bad, BatchLine, BatchRun, Conclusion, Counts, Line, LineFault, RunEnd, RunLine,
    SavedFault, TrialRun, WorkerCounts, batch_text, given_words, parse, text, trial_text,
};
use std::alloc::{AllocError, Global};
use std::env;
use std::process::Abort;
use std::test::Fail;

// Command lines, with one space between two words, and what they mean by clap's rules: the image, the memory in KiB, the
// limit and the version, and then what differs from its default.
static LINES: [(&str, &str); 87] = [
    // the image alone
    ("asc run a", "a 1024 1099511627776 2"),
    ("asc run ", " 1024 1099511627776 2"),
    ("asc run -", "- 1024 1099511627776 2"),
    ("asc run run", "run 1024 1099511627776 2"),
    ("asc run help", "help 1024 1099511627776 2"),
    ("asc run a=b", "a=b 1024 1099511627776 2"),
    // absent and unknown words
    ("", "refused"),
    ("asc", "refused"),
    ("asc run", "refused"),
    ("run a", "refused"),
    ("asc fly a", "refused"),
    ("asc run a b", "refused"),
    ("asc run -x", "refused"),
    ("asc run a --threads 1", "refused"),
    ("asc --memory 64 run a", "refused"),
    // abbreviated, and in another case
    ("asc ru a", "refused"),
    ("asc Run a", "refused"),
    ("asc run a --mem 64", "refused"),
    ("asc run a --Memory 64", "refused"),
    ("asc run a -m 64", "refused"),
    ("asc run a -memory 64", "refused"),
    // options before and after the image, their values apart or attached
    ("asc run a --memory 64", "a 64 1099511627776 2"),
    ("asc run --memory 65536 a", "a 65536 1099511627776 2"),
    ("asc run a --memory=128", "a 128 1099511627776 2"),
    ("asc run a --steps 0", "a 1024 0 2"),
    ("asc run a --steps=1099511627776", "a 1024 1099511627776 2"),
    ("asc run a --machine 1", "a 1024 1099511627776 1"),
    ("asc run --machine=2 a", "a 1024 1099511627776 2"),
    ("asc run --machine=1 --steps 5 a --memory 100", "a 100 5 1"),
    // an address, of 1 to 8 hexadecimal digits of either case
    ("asc run a --pc 0", "a 1024 1099511627776 2 pc 0"),
    ("asc run a --pc=10008", "a 1024 1099511627776 2 pc 65544"),
    ("asc run --pc 0000001f a", "a 1024 1099511627776 2 pc 31"),
    (
        "asc run a --pc ffffffff",
        "a 1024 1099511627776 2 pc 4294967295",
    ),
    (
        "asc run a --pc FFFFFFFF",
        "a 1024 1099511627776 2 pc 4294967295",
    ),
    (
        "asc run a --pc 89aBCdeF",
        "a 1024 1099511627776 2 pc 2309737967",
    ),
    ("asc run a --pc 1000g", "no address"),
    ("asc run a --pc=", "no address"),
    ("asc run a --pc ", "no address"),
    ("asc run a --pc 000010008", "no address"),
    ("asc run a --pc +1000", "no address"),
    ("asc run a --pc 0x1000", "no address"),
    ("asc run a --pc=-1", "no address"),
    ("asc run a --pc -1", "refused"),
    ("asc run a --pc", "refused"),
    ("asc run a --pc --report", "refused"),
    ("asc run a --pc 0 --pc 0", "refused"),
    ("asc run a --pc 0 --memory 63", "refused"),
    ("asc run a --pc 1000g --memory 63", "refused"),
    // a flag, which takes no value
    ("asc run a --report", "a 1024 1099511627776 2 report"),
    ("asc run --report a", "a 1024 1099511627776 2 report"),
    ("asc run --report -- a", "a 1024 1099511627776 2 report"),
    ("asc run -- --report", "--report 1024 1099511627776 2"),
    ("asc run a --report --report", "refused"),
    ("asc run a --report=true", "refused"),
    ("asc run a --report true", "refused"),
    (
        "asc run a --report --pc 1 --steps 5",
        "a 1024 5 2 pc 1 report",
    ),
    // values that are absent or empty
    ("asc run a --memory", "refused"),
    ("asc run a --memory=", "refused"),
    ("asc run a --memory ", "refused"),
    ("asc run a --memory --steps 5", "refused"),
    ("asc run --memory 64", "refused"),
    ("asc run --memory a", "refused"),
    // out of range
    ("asc run a --memory 63", "refused"),
    ("asc run a --memory 65537", "refused"),
    ("asc run a --steps 1099511627777", "refused"),
    ("asc run a --steps 18446744073709551616", "refused"),
    ("asc run a --machine 0", "refused"),
    ("asc run a --machine 3", "refused"),
    // signed, padded, and no decimal digits
    ("asc run a --memory +64", "a 64 1099511627776 2"),
    ("asc run a --memory=0064", "a 64 1099511627776 2"),
    ("asc run a --memory ++64", "refused"),
    ("asc run a --memory -64", "refused"),
    ("asc run a --memory=-64", "refused"),
    ("asc run a --steps=-0", "refused"),
    ("asc run a --memory 0x80", "refused"),
    ("asc run a --memory 64k", "refused"),
    ("asc run a --machine one", "refused"),
    // repeated
    ("asc run a --memory 64 --memory 64", "refused"),
    ("asc run a --steps 1 --steps=2", "refused"),
    ("asc run a --machine 1 --machine 1", "refused"),
    ("asc run a --steps", "refused"),
    ("asc run -- -h", "-h 1024 1099511627776 2"),
    // two hyphens
    ("asc run -- a", "a 1024 1099511627776 2"),
    ("asc run a --", "a 1024 1099511627776 2"),
    ("asc run -- --memory", "--memory 1024 1099511627776 2"),
    ("asc run a -- --memory 64", "refused"),
    ("asc -- run a", "refused"),
];

/// The same of options that say how guesses are made and followed.
static GUESS_LINES: [(&str, &str); 66] = [
    // which guesses are made
    ("asc run a --guess none", "a 1024 1099511627776 2 none"),
    ("asc run a --guess last", "a 1024 1099511627776 2 last"),
    ("asc run a --guess=stride", "a 1024 1099511627776 2"),
    ("asc run a --guess both", "a 1024 1099511627776 2 both"),
    ("asc run a --guess x", "refused"),
    ("asc run a --guess Stride", "refused"),
    ("asc run a --guess=", "refused"),
    ("asc run a --guess", "refused"),
    ("asc run a --guess last --guess last", "refused"),
    ("asc run a --guess x --pc 1000g", "refused"),
    ("asc run a --guess last --pc 1000g", "no address"),
    // how guesses are made and followed: each option at its ends, and just past them
    ("asc run a --profile 2", "a 1024 1099511627776 2 profile 2"),
    (
        "asc run a --profile 65536",
        "a 1024 1099511627776 2 profile 65536",
    ),
    ("asc run a --profile 1", "refused"),
    ("asc run a --profile 65537", "refused"),
    ("asc run a --min 2", "a 1024 1099511627776 2 min 2"),
    ("asc run a --min 65536", "a 1024 1099511627776 2 min 65536"),
    ("asc run a --min 1", "refused"),
    ("asc run a --min 65537", "refused"),
    ("asc run a --laps 1", "a 1024 1099511627776 2"),
    (
        "asc run a --laps 1000000",
        "a 1024 1099511627776 2 laps 1000000",
    ),
    ("asc run a --laps 0", "refused"),
    ("asc run a --laps 1000001", "refused"),
    ("asc run a --span 1", "a 1024 1099511627776 2 span 1"),
    (
        "asc run a --span 1000000000",
        "a 1024 1099511627776 2 span 1000000000",
    ),
    ("asc run a --span 0", "refused"),
    ("asc run a --span 1000000001", "refused"),
    ("asc run a --ahead 1", "a 1024 1099511627776 2 ahead 1"),
    ("asc run a --ahead 64", "a 1024 1099511627776 2 ahead 64"),
    ("asc run a --ahead 0", "refused"),
    ("asc run a --ahead 65", "refused"),
    ("asc run a --workers 0", "a 1024 1099511627776 2"),
    (
        "asc run a --workers 64",
        "a 1024 1099511627776 2 workers 64",
    ),
    (
        "asc run a --workers 64 --rounds",
        "a 1024 1099511627776 2 lanes 64",
    ),
    (
        "asc run --rounds a --report --workers 1",
        "a 1024 1099511627776 2 lanes 1 report",
    ),
    ("asc run a --rounds", "a 1024 1099511627776 2"),
    ("asc run a --workers 0 --rounds", "a 1024 1099511627776 2"),
    ("asc run a --rounds --rounds", "refused"),
    ("asc run a --rounds=1", "refused"),
    ("asc run a --workers 65 --rounds", "refused"),
    ("asc save i --rounds", "refused"),
    ("asc run a --workers=-1", "refused"),
    ("asc run a --workers 65", "refused"),
    ("asc run a --queue 1", "a 1024 1099511627776 2 queue 1"),
    (
        "asc run a --queue 1024",
        "a 1024 1099511627776 2 queue 1024",
    ),
    ("asc run a --queue 0", "refused"),
    ("asc run a --queue 1025", "refused"),
    (
        "asc run a --profile 6 --min 3 --laps 5 --span 7 --ahead 2 --workers 8 --queue 9",
        "a 1024 1099511627776 2 profile 6 min 3 laps 5 span 7 ahead 2 workers 8 queue 9",
    ),
    ("asc run a --ahead 2 --ahead 2", "refused"),
    ("asc run a --queue", "refused"),
    // whether entries are joined: a flag, on a run and on a save alone
    ("asc run a --join", "a 1024 1099511627776 2 join"),
    (
        "asc run --join a --report --queue 9",
        "a 1024 1099511627776 2 queue 9 join report",
    ),
    ("asc save i --join", "save i 1024 1099511627776 2 join"),
    ("asc run a --join --join", "refused"),
    ("asc run a --join=1", "refused"),
    ("asc save i --join --join", "refused"),
    ("asc save i --join=1", "refused"),
    ("asc make 0 --join", "refused"),
    ("asc trial 0 --join", "refused"),
    // whether the address is sought: a flag, on a run, on a save, and on a batch
    ("asc run a --seek", "a 1024 1099511627776 2 seek"),
    (
        "asc run --seek a --pc 1f --join --workers 2",
        "a 1024 1099511627776 2 pc 31 workers 2 seek join",
    ),
    ("asc save i --seek", "save i 1024 1099511627776 2 seek"),
    ("asc run a --seek --seek", "refused"),
    ("asc run a --seek=1", "refused"),
    ("asc make 0 --seek", "refused"),
    ("asc trial 0 --seek", "refused"),
];

/// The same of saved entries, of other subcommands, and of help.
static OTHER_LINES: [(&str, &str); 57] = [
    // a file of saved entries
    ("asc run i --load f", "i 1024 1099511627776 2 load f"),
    (
        "asc run --load=f.asce i --workers 2 --report",
        "i 1024 1099511627776 2 workers 2 report load f.asce",
    ),
    ("asc run i --load=", "i 1024 1099511627776 2 load "),
    ("asc run i --load", "refused"),
    ("asc run i --load --report", "refused"),
    ("asc run i --load f --load f", "refused"),
    ("asc make 0 --load f", "refused"),
    ("asc trial 0 --load f", "refused"),
    ("asc save i", "save i 1024 1099511627776 2"),
    ("asc save run", "save run 1024 1099511627776 2"),
    (
        "asc save --memory=64 i --steps 5 --machine 1 --guess both --pc 1f --profile 6 --min 3 --laps 5 --span 7 --ahead 2 --queue 9",
        "save i 64 5 1 both pc 31 profile 6 min 3 laps 5 span 7 ahead 2 queue 9",
    ),
    ("asc save", "refused"),
    ("asc Save i", "refused"),
    ("asc save i j", "refused"),
    ("asc save i --workers 1", "refused"),
    ("asc save i --workers 0", "refused"),
    ("asc save i --report", "refused"),
    ("asc save i --load x", "refused"),
    ("asc save i --queue 0", "refused"),
    ("asc save i --guess x --pc 1000g", "refused"),
    ("asc save i --pc 1000g", "no address"),
    // generated images
    ("asc make 0", "make 0"),
    ("asc make 300", "make 300"),
    ("asc make +7", "make 7"),
    ("asc make 18446744073709551615", "make 18446744073709551615"),
    ("asc trial 0", "trial 0 workers 0 lanes 0"),
    (
        "asc trial 18446744073709551615",
        "trial 18446744073709551615 workers 0 lanes 0",
    ),
    ("asc trial 0 --workers 2", "trial 0 workers 2 lanes 0"),
    ("asc trial --workers=64 300", "trial 300 workers 64 lanes 0"),
    (
        "asc trial 300 --workers 3 --rounds",
        "trial 300 workers 0 lanes 3",
    ),
    ("asc trial --rounds 300", "trial 300 workers 0 lanes 0"),
    ("asc trial 300 --rounds --rounds", "refused"),
    ("asc make 0 --rounds", "refused"),
    ("asc make", "refused"),
    ("asc make 18446744073709551616", "refused"),
    ("asc make 1 2", "refused"),
    ("asc make -1", "refused"),
    ("asc make x", "refused"),
    ("asc make 0x10", "refused"),
    ("asc make 0 --workers 1", "refused"),
    ("asc Make 0", "refused"),
    ("asc trial", "refused"),
    ("asc trial 18446744073709551616", "refused"),
    ("asc trial 1 2", "refused"),
    ("asc trial 0 --workers 65", "refused"),
    ("asc trial 0 --workers 2 --workers 2", "refused"),
    ("asc trial 0 --ahead 2", "refused"),
    ("asc trial run 0", "refused"),
    // help and versions
    ("asc -h", "refused"),
    ("asc --help", "refused"),
    ("asc help", "refused"),
    ("asc help run", "refused"),
    ("asc run -h", "refused"),
    ("asc run a --help", "refused"),
    ("asc -V", "refused"),
    ("asc --version", "refused"),
    ("asc run a --version", "refused"),
];

// The same of batches: words, how many inputs named `x` stand behind them, and what they mean. The inputs are told by their
// number and by those of other names.
static BATCH_LINES: [(&str, usize, &str); 16] = [
    // the inputs in their order, and options between them
    (
        "asc batch i a b c",
        0,
        "batch i 1024 1099511627776 2 of 3 a b c",
    ),
    (
        "asc batch i c a a",
        0,
        "batch i 1024 1099511627776 2 of 3 c a a",
    ),
    (
        "asc batch --workers 2 i a --memory=64 b --report c",
        0,
        "batch i 64 1099511627776 2 workers 2 report of 3 a b c",
    ),
    (
        "asc batch i a --join --pc 1f -- --report b",
        0,
        "batch i 1024 1099511627776 2 pc 31 join of 3 a --report b",
    ),
    (
        "asc batch i a --seek",
        0,
        "batch i 1024 1099511627776 2 seek of 1 a",
    ),
    // none, as many as may be, and one more
    ("asc batch", 0, "refused"),
    ("asc batch i", 0, "refused"),
    ("asc batch i --report", 0, "refused"),
    ("asc batch i", 64, "batch i 1024 1099511627776 2 of 64"),
    ("asc batch i", 65, "too many inputs"),
    // other wrong words come first
    ("asc batch i --pc 1000g", 65, "no address"),
    ("asc batch i --guess x --pc 1000g", 65, "refused"),
    ("asc batch i --workers 65", 65, "refused"),
    // what only a single run takes
    ("asc batch i a --rounds", 0, "refused"),
    ("asc batch i a --load f", 0, "refused"),
    ("asc batch i a --report --report", 0, "refused"),
];

// The words of a text.
fn words_of(alloc: Global, text: &str) -> Result<Vec<String>, AllocError> {
    let mut words = Vec::new(alloc);
    for word in text.split(' ') {
        words.push(String::from_str(alloc, word)?)?;
    }
    Ok(words)
}

// Which guesses a run makes, as a text.
fn guesses_text(last: bool, stride: bool) -> &'static str {
    match (last, stride) {
        (false, false) => " none",
        (true, false) => " last",
        (false, true) => "",
        (true, true) => " both",
    }
}

// What a run is asked for, as a text.
fn run_text(alloc: Global, line: &RunLine) -> Result<String, AllocError> {
    let image = line.image.as_str();
    let version = if line.version == Version::One { 1 } else { 2 };
    let (memory, limit) = (line.memory, line.limit);
    let mut meaning = format!(in alloc; "{image} {memory} {limit} {version}")?;
    meaning.push_str(guesses_text(line.last, line.stride))?;
    if let Some(pc) = line.pc {
        meaning.push_str(format!(in alloc; " pc {pc}")?.as_str())?;
    }
    let numbers = [
        ("profile", u64::from(line.profile), 4096),
        ("min", u64::from(line.least), 4),
        ("laps", line.laps, 1),
        ("span", line.span, 1_000_000),
        ("ahead", u64::from(line.ahead), 4),
        ("workers", line.workers as u64, 0),
        ("lanes", line.lanes as u64, 0),
        ("queue", line.queue as u64, 256),
    ];
    for (name, number, default) in &numbers {
        if number != default {
            meaning.push_str(format!(in alloc; " {name} {number}")?.as_str())?;
        }
    }
    if line.seek {
        meaning.push_str(" seek")?;
    }
    if line.join {
        meaning.push_str(" join")?;
    }
    if line.report {
        meaning.push_str(" report")?;
    }
    if let Some(name) = &line.load {
        let name = name.as_str();
        meaning.push_str(format!(in alloc; " load {name}")?.as_str())?;
    }
    Ok(meaning)
}

// What a batch is asked for, as a text.
fn inputs_text(alloc: Global, line: &BatchLine) -> Result<String, AllocError> {
    let run = run_text(alloc, &line.run)?;
    let count = line.inputs.len();
    let mut meaning = format!(in alloc; "batch {run} of {count}")?;
    for name in &line.inputs {
        let name = name.as_str();
        if name != "x" {
            meaning.push_str(format!(in alloc; " {name}")?.as_str())?;
        }
    }
    Ok(meaning)
}

// What the words mean, as a text.
fn meaning_of(alloc: Global, words: &[String]) -> Result<String, AllocError> {
    match parse(alloc, words) {
        Ok(Line::Run(line)) => run_text(alloc, &line),
        Ok(Line::Save(line)) => {
            let meaning = run_text(alloc, &line)?;
            format!(in alloc; "save {meaning}")
        }
        Ok(Line::Make { n }) => format!(in alloc; "make {n}"),
        Ok(Line::Trial { n, workers, lanes }) => {
            format!(in alloc; "trial {n} workers {workers} lanes {lanes}")
        }
        Ok(Line::Batch(line)) => inputs_text(alloc, &line),
        Err(LineFault::Usage(Bad::Pc)) => String::from_str(alloc, "no address"),
        Err(LineFault::Usage(Bad::Inputs)) => String::from_str(alloc, "too many inputs"),
        Err(LineFault::Usage(Bad::Words)) => String::from_str(alloc, "refused"),
        Err(LineFault::Memory) => String::from_str(alloc, "out of memory"),
    }
}

/// Sees that the words of each line mean what stands beside it.
fn check_lines<R: Abort>(rt: &R, alloc: Global, lines: &[(&str, &str)]) -> Result<(), AllocError> {
    for (text, want) in lines {
        let meaning = meaning_of(alloc, &words_of(alloc, text)?)?;
        assert_eq!(rt; meaning.as_str(), *want, "{text}");
    }
    Ok(())
}

#[test]
fn command_lines(rt: HostRuntime) -> Result<(), Fail> {
    let alloc = rt.alloc();
    assert_eq!(rt; meaning_of(alloc, &[])?.as_str(), "refused");
    check_lines(&rt, alloc, &LINES)?;
    Ok(())
}

#[test]
fn guess_lines(rt: HostRuntime) -> Result<(), Fail> {
    check_lines(&rt, rt.alloc(), &GUESS_LINES)?;
    Ok(())
}

#[test]
fn other_lines(rt: HostRuntime) -> Result<(), Fail> {
    check_lines(&rt, rt.alloc(), &OTHER_LINES)?;
    Ok(())
}

// The words of a text, and this many words `x` behind them.
fn words_and(alloc: Global, text: &str, more: usize) -> Result<Vec<String>, AllocError> {
    let mut words = words_of(alloc, text)?;
    for _ in 0..more {
        words.push(String::from_str(alloc, "x")?)?;
    }
    Ok(words)
}

#[test]
fn batch_lines(rt: HostRuntime) -> Result<(), Fail> {
    let alloc = rt.alloc();
    for (text, more, want) in &BATCH_LINES {
        let meaning = meaning_of(alloc, &words_and(alloc, text, *more)?)?;
        assert_eq!(rt; meaning.as_str(), *want, "{text} {more}");
    }
    Ok(())
}

const FIRST: Fault = Fault {
    kind: FaultKind::Misaligned,
    pc: 0,
    value: 0,
};

const LAST: Fault = Fault {
    kind: FaultKind::AtomicMisaligned,
    pc: u32::MAX,
    value: u32::MAX,
};

// The answers' table: the exit status of each answer, and its line.
static ANSWERS: [(Answer, u8, &str); 57] = [
    (Answer::Exit(0), 0, ""),
    (Answer::Exit(255), 255, ""),
    (Answer::Done(0), 0, ""),
    (Answer::Done(u64::MAX), 0, ""),
    (Answer::Usage(Bad::Words), 64, "asc: usage\n"),
    (Answer::Usage(Bad::Pc), 64, "asc: usage\n"),
    (Answer::Usage(Bad::Inputs), 64, "asc: usage\n"),
    (Answer::Image(ElfFault::Short), 65, "asc: image fault 1\n"),
    (Answer::Image(ElfFault::Magic), 65, "asc: image fault 2\n"),
    (Answer::Image(ElfFault::Class), 65, "asc: image fault 3\n"),
    (Answer::Image(ElfFault::Data), 65, "asc: image fault 4\n"),
    (Answer::Image(ElfFault::Version), 65, "asc: image fault 5\n"),
    (
        Answer::Image(ElfFault::FileType),
        65,
        "asc: image fault 6\n",
    ),
    (Answer::Image(ElfFault::Machine), 65, "asc: image fault 7\n"),
    (Answer::Image(ElfFault::Flags), 65, "asc: image fault 8\n"),
    (
        Answer::Image(ElfFault::HeaderSize),
        65,
        "asc: image fault 9\n",
    ),
    (Answer::Image(ElfFault::Table), 65, "asc: image fault 10\n"),
    (Answer::Image(ElfFault::Interp), 65, "asc: image fault 11\n"),
    (
        Answer::Image(ElfFault::Segment(0)),
        65,
        "asc: image fault 12 header 0\n",
    ),
    (
        Answer::Image(ElfFault::Segment(u32::MAX)),
        65,
        "asc: image fault 12 header 4294967295\n",
    ),
    (Answer::Image(ElfFault::NoLoad), 65, "asc: image fault 13\n"),
    (
        Answer::Image(ElfFault::TooLarge),
        65,
        "asc: image fault 14\n",
    ),
    (Answer::Image(ElfFault::Entry), 65, "asc: image fault 15\n"),
    (Answer::TooLong, 65, "asc: image too long\n"),
    (Answer::InputTooLong(2), 65, "asc: input 2 too long\n"),
    (
        Answer::InputTooLong(usize::MAX),
        65,
        "asc: input 18446744073709551615 too long\n",
    ),
    (
        Answer::Saved(SavedFault::File(SaveFault::Short)),
        65,
        "asc: saved fault 1\n",
    ),
    (
        Answer::Saved(SavedFault::File(SaveFault::Magic)),
        65,
        "asc: saved fault 2\n",
    ),
    (
        Answer::Saved(SavedFault::File(SaveFault::Version)),
        65,
        "asc: saved fault 3\n",
    ),
    (
        Answer::Saved(SavedFault::File(SaveFault::Machine)),
        65,
        "asc: saved fault 4\n",
    ),
    (
        Answer::Saved(SavedFault::File(SaveFault::Shape)),
        65,
        "asc: saved fault 5\n",
    ),
    (
        Answer::Saved(SavedFault::File(SaveFault::Count)),
        65,
        "asc: saved fault 6\n",
    ),
    (
        Answer::Saved(SavedFault::File(SaveFault::Entry(0))),
        65,
        "asc: saved fault 7 entry 0\n",
    ),
    (
        Answer::Saved(SavedFault::File(SaveFault::Entry(usize::MAX))),
        65,
        "asc: saved fault 7 entry 18446744073709551615\n",
    ),
    (
        Answer::Saved(SavedFault::File(SaveFault::Long)),
        65,
        "asc: saved fault 8\n",
    ),
    (
        Answer::Saved(SavedFault::File(SaveFault::Untrue(1023))),
        65,
        "asc: saved fault 9 entry 1023\n",
    ),
    (
        Answer::Saved(SavedFault::File(SaveFault::Untrue(usize::MAX))),
        65,
        "asc: saved fault 9 entry 18446744073709551615\n",
    ),
    (
        Answer::Saved(SavedFault::OtherShape),
        65,
        "asc: saved fault 10\n",
    ),
    (
        Answer::Saved(SavedFault::TooLong),
        65,
        "asc: saved fault 11\n",
    ),
    (Answer::StoreFault, 66, "asc: store failed\n"),
    (Answer::Memory, 71, "asc: out of memory\n"),
    (Answer::ReadFault, 74, "asc: input failed\n"),
    (Answer::WriteFault, 74, "asc: output failed\n"),
    (Answer::ErrFault, 74, "asc: error output failed\n"),
    (Answer::ReportFault, 74, ""),
    (Answer::Limit(0), 75, "asc: limit after 0\n"),
    (Answer::Limit(2), 75, "asc: limit after 2\n"),
    (
        Answer::Limit(u64::MAX),
        75,
        "asc: limit after 18446744073709551615\n",
    ),
    (
        Answer::Fault(FIRST, 0),
        76,
        "asc: fault 1 at 00000000 value 00000000 after 0\n",
    ),
    (
        Answer::Fault(
            Fault {
                kind: FaultKind::FetchOutside,
                ..FIRST
            },
            1,
        ),
        76,
        "asc: fault 2 at 00000000 value 00000000 after 1\n",
    ),
    (
        Answer::Fault(
            Fault {
                kind: FaultKind::Illegal,
                pc: 0x10000,
                value: 0,
            },
            0,
        ),
        76,
        "asc: fault 3 at 00010000 value 00000000 after 0\n",
    ),
    (
        Answer::Fault(
            Fault {
                kind: FaultKind::LoadOutside,
                pc: 0x10004,
                value: 0x1FFFD,
            },
            1,
        ),
        76,
        "asc: fault 4 at 00010004 value 0001fffd after 1\n",
    ),
    (
        Answer::Fault(
            Fault {
                kind: FaultKind::StoreOutside,
                pc: 0x89AB_CDEF,
                value: 0x0123_4567,
            },
            9,
        ),
        76,
        "asc: fault 5 at 89abcdef value 01234567 after 9\n",
    ),
    (
        Answer::Fault(
            Fault {
                kind: FaultKind::Break,
                pc: 0x10000,
                value: 0,
            },
            10,
        ),
        76,
        "asc: fault 6 at 00010000 value 00000000 after 10\n",
    ),
    (
        Answer::Fault(LAST, 1_099_511_627_776),
        76,
        "asc: fault 7 at ffffffff value ffffffff after 1099511627776\n",
    ),
    (
        Answer::Fault(LAST, u64::MAX),
        76,
        "asc: fault 7 at ffffffff value ffffffff after 18446744073709551615\n",
    ),
    (
        Answer::Limit(1_099_511_627_776),
        75,
        "asc: limit after 1099511627776\n",
    ),
];

// The numbers of a run, and their line.
static NUMBERS: [(Counts, &str); 3] = [
    (
        Counts {
            run: RunCounts {
                executed: 0,
                skipped: 0,
                asked: 0,
                hits: 0,
            },
            made: 0,
            refused: 0,
        },
        "asc: executed 0 skipped 0 asked 0 hits 0 made 0 refused 0\n",
    ),
    (
        Counts {
            run: RunCounts {
                executed: 1,
                skipped: 20,
                asked: 300,
                hits: 4000,
            },
            made: 50_000,
            refused: 600_000,
        },
        "asc: executed 1 skipped 20 asked 300 hits 4000 made 50000 refused 600000\n",
    ),
    (
        Counts {
            run: RunCounts {
                executed: u64::MAX,
                skipped: u64::MAX,
                asked: u64::MAX,
                hits: u64::MAX,
            },
            made: u64::MAX,
            refused: u64::MAX,
        },
        "asc: executed 18446744073709551615 skipped 18446744073709551615 asked 18446744073709551615 \
         hits 18446744073709551615 made 18446744073709551615 refused 18446744073709551615\n",
    ),
];

// What five columns may have each at most: their sum is then the greatest number, and the text the longest.
const FIFTH: u64 = u64::MAX / 5;

// The numbers of workers: jobs left, stored, known, empty, dropped and stopped, and guesses for which there was no room; and
// their line.
static WORKERS: [([u64; 7], &str); 3] = [
    (
        [0, 4, 0, 0, 0, 0, 0],
        "asc: ran 4 left 0 stored 4 known 0 empty 0 dropped 0 stopped 0 full 0\n",
    ),
    (
        [20, 300, 4000, 50_000, 600_000, 7_000_000, 80_000_000],
        "asc: ran 7654300 left 20 stored 300 known 4000 empty 50000 dropped 600000 stopped 7000000 full 80000000\n",
    ),
    (
        [u64::MAX, FIFTH, FIFTH, FIFTH, FIFTH, FIFTH, u64::MAX],
        "asc: ran 18446744073709551615 left 18446744073709551615 stored 3689348814741910323 \
         known 3689348814741910323 empty 3689348814741910323 dropped 3689348814741910323 \
         stopped 3689348814741910323 full 18446744073709551615\n",
    ),
];

// The numbers of workers, whose jobs that were run are those in the columns.
fn workers_of<R: Abort>(rt: &R, numbers: [u64; 7]) -> WorkerCounts {
    let [left, stored, known, empty, dropped, stopped, full] = numbers;
    assert!(rt; stored <= FIFTH && known <= FIFTH && empty <= FIFTH);
    assert!(rt; dropped <= FIFTH && stopped <= FIFTH);
    let tally = Tally {
        ran: stored + known + empty + dropped + stopped,
        stored,
        known,
        empty,
        dropped,
        stopped,
    };
    WorkerCounts { tally, left, full }
}

// Whether this is the text of a conclusion, and all bytes behind it stay.
fn is_text(conclusion: Conclusion, want: &str) -> bool {
    let mut into = [0xEE; 512];
    let length = text(&conclusion, &mut into);
    &into[..length] == want.as_bytes() && into[length..].iter().all(|byte| *byte == 0xEE)
}

#[test]
fn answers(rt: HostRuntime) -> Result<(), Fail> {
    let alloc = rt.alloc();
    for (answer, code, line) in &ANSWERS {
        assert_eq!(rt; answer.code(), *code, "code of {line}");
        let mut conclusion = Conclusion::of(*answer);
        assert!(rt; is_text(conclusion, line), "text of {line}");
        for (counts, numbers) in &NUMBERS {
            conclusion.counts = Some(*counts);
            conclusion.workers = None;
            let want = format!(in alloc; "{line}{numbers}")?;
            assert!(rt; is_text(conclusion, want.as_str()), "{want}");
            for (workers, more) in &WORKERS {
                conclusion.workers = Some(workers_of(&rt, *workers));
                let want = format!(in alloc; "{line}{numbers}{more}")?;
                assert!(rt; is_text(conclusion, want.as_str()), "{want}");
            }
        }
    }
    Ok(())
}

// Trials, and their texts.
static TRIALS: [(TrialRun, &str); 5] = [
    (
        TrialRun {
            n: 0,
            status: 0,
            steps: 3310,
            output: 64,
            counts: Some(Counts {
                run: RunCounts {
                    executed: 422,
                    skipped: 2888,
                    asked: 16,
                    hits: 14,
                },
                made: 16,
                refused: 1,
            }),
        },
        "trial 0: status 0, steps 3310, output 64\nexecuted 422, skipped 2888, asked 16, hits 14, made 16\n",
    ),
    (
        TrialRun {
            n: 300,
            status: 0,
            steps: 15464,
            output: 300,
            counts: Some(Counts {
                run: RunCounts {
                    executed: 422,
                    skipped: 15042,
                    asked: 75,
                    hits: 73,
                },
                made: 75,
                refused: 0,
            }),
        },
        "trial 300: status 0, steps 15464, output 300\nexecuted 422, skipped 15042, asked 75, hits 73, made 75\n",
    ),
    (
        TrialRun {
            n: u64::MAX,
            status: 0,
            steps: 49454,
            output: 960,
            counts: None,
        },
        "trial 18446744073709551615: status 0, steps 49454, output 960\n",
    ),
    (
        TrialRun {
            n: 1,
            status: 20,
            steps: 300,
            output: 4000,
            counts: None,
        },
        "trial 1: status 20, steps 300, output 4000\n",
    ),
    (
        TrialRun {
            n: u64::MAX,
            status: 255,
            steps: u64::MAX,
            output: u64::MAX,
            counts: Some(Counts {
                run: RunCounts {
                    executed: u64::MAX,
                    skipped: u64::MAX,
                    asked: u64::MAX,
                    hits: u64::MAX,
                },
                made: u64::MAX,
                refused: u64::MAX,
            }),
        },
        "trial 18446744073709551615: status 255, steps 18446744073709551615, output 18446744073709551615\n\
         executed 18446744073709551615, skipped 18446744073709551615, asked 18446744073709551615, \
         hits 18446744073709551615, made 18446744073709551615\n",
    ),
];

// Whether this is the text of a trial, and all bytes behind it stay.
fn is_trial_text(trial: &TrialRun, want: &str) -> bool {
    let mut into = [0xEE; 512];
    let length = trial_text(trial, &mut into);
    &into[..length] == want.as_bytes() && into[length..].iter().all(|byte| *byte == 0xEE)
}

#[test]
fn trials(rt: HostRuntime) {
    for (trial, want) in &TRIALS {
        assert!(rt; is_trial_text(trial, want), "{want}");
    }
}

// Runs of a batch: the number, the end, the steps, the numbers of the run and of its workers, and the text.
static BATCH_RUNS: [(usize, RunEnd, u64, Option<Counts>, Option<[u64; 7]>, &str); 5] = [
    (
        0,
        RunEnd::Exit(0),
        19,
        Some(Counts {
            run: RunCounts {
                executed: 13,
                skipped: 6,
                asked: 4,
                hits: 2,
            },
            made: 4,
            refused: 0,
        }),
        None,
        "asc: run 0: exit 0 after 19\nasc: executed 13 skipped 6 asked 4 hits 2 made 4 refused 0\n",
    ),
    (
        63,
        RunEnd::Limit,
        1_099_511_627_776,
        None,
        None,
        "asc: run 63: limit after 1099511627776\n",
    ),
    (
        7,
        RunEnd::Fault(Fault {
            kind: FaultKind::LoadOutside,
            pc: 0x10004,
            value: 0x1FFFD,
        }),
        1,
        None,
        None,
        "asc: run 7: fault 4 at 00010004 value 0001fffd after 1\n",
    ),
    (
        1,
        RunEnd::Exit(255),
        21,
        Some(Counts {
            run: RunCounts {
                executed: 1,
                skipped: 20,
                asked: 300,
                hits: 4000,
            },
            made: 50_000,
            refused: 600_000,
        }),
        Some([0, 4, 0, 0, 0, 0, 0]),
        "asc: run 1: exit 255 after 21\n\
         asc: executed 1 skipped 20 asked 300 hits 4000 made 50000 refused 600000\n\
         asc: ran 4 left 0 stored 4 known 0 empty 0 dropped 0 stopped 0 full 0\n",
    ),
    (
        usize::MAX,
        RunEnd::Fault(LAST),
        u64::MAX,
        None,
        None,
        "asc: run 18446744073709551615: fault 7 at ffffffff value ffffffff after 18446744073709551615\n",
    ),
];

// Whether this is the text of a run of a batch, and all bytes behind it stay.
fn is_batch_text(run: &BatchRun, want: &str) -> bool {
    let mut into = [0xEE; 512];
    let length = batch_text(run, &mut into);
    &into[..length] == want.as_bytes() && into[length..].iter().all(|byte| *byte == 0xEE)
}

#[test]
fn batch_runs(rt: HostRuntime) {
    for &(number, end, steps, counts, workers, want) in &BATCH_RUNS {
        let run = BatchRun {
            number,
            end,
            steps,
            counts,
            workers: workers.map(|numbers| workers_of(&rt, numbers)),
        };
        assert!(rt; is_batch_text(&run, want), "{want}");
    }
}

#[test]
fn takes_the_words_of_the_system(rt: HostRuntime) {
    match given_words(rt.alloc(), env::args(&rt)) {
        Ok(words) => assert!(rt; !words.is_empty()),
        Err(fault) => assert_eq!(rt; fault, LineFault::Memory),
    }
}
