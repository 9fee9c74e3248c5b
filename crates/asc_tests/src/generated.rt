//! Generated images: what `asc make` puts, and what `asc trial` tells of their runs.
use crate::outside::{Outside, QUIET, SOUND, Want, check, run_line};
use asc_make::image;
use asc_words::{Answer, Bad};
use std::test::Fail;

/// Room for an image, and for the text of a trial.
const ROOMY: Outside = Outside { room: 180, ..SOUND };

/// What comes where a file is never asked for.
const DONE: Want = Want {
    answer: Answer::Done(0),
    asked: 0,
    ..QUIET
};

const USAGE: Want = Want {
    answer: Answer::Usage(Bad::Words),
    asked: 0,
    report: "asc: usage\n",
    ..QUIET
};

const WRITE_FAULT: Want = Want {
    answer: Answer::WriteFault,
    asked: 0,
    report: "asc: output failed\n",
    ..QUIET
};

const TRIAL: &str = "trial 0: status 0, steps 3310, output 64\n\
                     executed 422, skipped 2888, asked 16, hits 14, made 16\n";

// A line, the calls of the store, the input, out, err and the report that fail, and what must come of it. The numbers
// are worked out from the program: each word that it fills is a lap of 206 steps.
static TRIALS: [(&str, [u64; 5], Want); 19] = [
    ("asc trial 0", [0; 5], Want { out: TRIAL, ..DONE }),
    (
        "asc trial +00",
        [1, 1, 0, 1, 1],
        Want { out: TRIAL, ..DONE },
    ),
    (
        "asc trial 300",
        [0; 5],
        Want {
            out: "trial 300: status 0, steps 15464, output 300\n\
                  executed 422, skipped 15042, asked 75, hits 73, made 75\n",
            ..DONE
        },
    ),
    (
        "asc trial 18446744073709551615",
        [0; 5],
        Want {
            out: "trial 18446744073709551615: status 0, steps 49454, output 960\n\
                  executed 422, skipped 49032, asked 240, hits 238, made 240\n",
            ..DONE
        },
    ),
    // With workers the numbers depend on when they are done, and are not told.
    (
        "asc trial 0 --workers 2",
        [0; 5],
        Want {
            out: "trial 0: status 0, steps 3310, output 64\n",
            ..DONE
        },
    ),
    // In rounds they are told, and are those without workers.
    (
        "asc trial 300 --workers 3 --rounds",
        [0; 5],
        Want {
            out: "trial 300: status 0, steps 15464, output 300\n\
                  executed 422, skipped 15042, asked 75, hits 73, made 75\n",
            ..DONE
        },
    ),
    // out fails, and then the report too
    ("asc trial 0", [0, 0, 1, 0, 0], WRITE_FAULT),
    (
        "asc trial 0",
        [0, 0, 3, 0, 0],
        Want {
            out: "trial ",
            ..WRITE_FAULT
        },
    ),
    (
        "asc trial 0",
        [0, 0, 3, 0, 2],
        Want {
            answer: Answer::ReportFault,
            out: "trial ",
            report: "asc",
            ..DONE
        },
    ),
    // of an image the first calls, and none
    ("asc make 0", [0, 0, 1, 0, 0], WRITE_FAULT),
    (
        "asc make 0",
        [0, 0, 3, 0, 0],
        Want {
            out: "\x7FELF\x01\x01",
            ..WRITE_FAULT
        },
    ),
    (
        "asc make 0",
        [0, 0, 2, 0, 1],
        Want {
            answer: Answer::ReportFault,
            out: "\x7FEL",
            report: "",
            ..DONE
        },
    ),
    // words that are of no command
    ("asc make", [0; 5], USAGE),
    ("asc make 18446744073709551616", [0; 5], USAGE),
    ("asc make 0 --workers 1", [0; 5], USAGE),
    ("asc trial", [0; 5], USAGE),
    ("asc trial x", [0; 5], USAGE),
    ("asc trial 0 --workers 65", [0; 5], USAGE),
    ("asc trial 0 --rounds=2", [0; 5], USAGE),
];

#[test]
fn trials(rt: HostRuntime) -> Result<(), Fail> {
    let alloc = rt.alloc();
    for (line, fails, want) in &TRIALS {
        let outside = Outside {
            fails: *fails,
            ..ROOMY
        };
        check(&rt, alloc, line, Vec::new(alloc), &outside, want)?;
    }
    Ok(())
}

// A line, and the number of the image that it puts.
static MADE: [(&str, u64); 3] = [
    ("asc make 0", 0),
    ("asc make 300", 300),
    ("asc make 18446744073709551615", u64::MAX),
];

#[test]
fn images(rt: HostRuntime) -> Result<(), Fail> {
    let alloc = rt.alloc();
    for (line, n) in &MADE {
        let got = run_line(&rt, alloc, line, Vec::new(alloc), &ROOMY)?;
        assert_eq!(rt; got.answer, Answer::Done(0), "at {line}");
        assert_eq!(rt; got.out().len(), 180, "at {line}");
        assert_eq!(rt; got.out(), image(alloc, *n)?.as_slice(), "at {line}");
    }
    Ok(())
}
