//! Runs with workers: the counting loop while workers or the run are held up.
use crate::images::wrap;
use crate::outside::{QUIET, SOUND, Want, check, only_image, run_gated};
use crate::whole_runs::COUNTS;
use asc_outside::{Hold, HoldGate, Point};
use asc_words::Answer;
use std::alloc::{AllocError, Global};
use std::process::Abort;
use std::sync::Wait;
use std::test::Fail;
use std::thread::Threads;

/// How often a hold looks whether it is over, at most.
const TURNS: u64 = 1_000_000;

/// A run that is held up, how many visits ask for a jump and how many jobs are pushed, how many of these its workers run
/// at least, and how its report begins and ends.
#[derive(Drop)]
struct Held<'a> {
    line: &'static str,
    holds: &'a [Hold],
    asked: u64,
    made: u64,
    least: u64,
    begins: &'static str,
    ends: &'static str,
}

const TWO: &str = "asc run image --pc 10008 --guess stride --ahead 2 --report --workers 2";

/// One worker joins the entries of its jobs.
const JOINED: &str =
    "asc run image --pc 10008 --guess stride --ahead 2 --join --report --workers 1";

const FOUR: &str = "asc run image --pc 10008 --guess stride --ahead 2 --report --workers 4";

/// The walk's end is held up until a job is done.
fn end_until(job: u64) -> Hold {
    end_until_at(Point::Done, job)
}

/// The walk's end is held up until a job comes to a point.
fn end_until_at(until: Point, job: u64) -> Hold {
    Hold {
        at: Point::Ended,
        ticket: 0,
        until,
        other: job,
    }
}

/// A worker is held up at a point of a job until the walk has ended.
fn until_end(at: Point, ticket: u64) -> Hold {
    Hold {
        at,
        ticket,
        until: Point::Ended,
        other: 0,
    }
}

/// What comes to a point with a ticket is held up until another point has come with another ticket.
macro_rules! hold {
    ($at:ident $ticket:literal until $until:ident $other:literal) => {
        Hold {
            at: Point::$at,
            ticket: $ticket,
            until: Point::$until,
            other: $other,
        }
    };
}

/// The numbers of a report, in its order.
fn numbers(report: &str) -> [u64; 14] {
    let mut numbers = [0; 14];
    let told = report
        .split_whitespace()
        .filter_map(|word| word.parse().ok());
    for (number, value) in numbers.iter_mut().zip(told) {
        *number = value;
    }
    numbers
}

/// Runs the counting loop while it is held up, and checks what its numbers keep.
fn count_held<R: Abort + Threads + Wait + Sync + Copy + Drop + Send>(
    rt: &R,
    alloc: Global,
    held: &Held<'_>,
) -> Result<(), AllocError> {
    let report = report_of_held(rt, alloc, held)?;
    check_counts(rt, held, &report);
    Ok(())
}

/// The report of the counting loop while it is held up.
fn report_of_held<R: Abort + Threads + Wait + Sync + Copy + Drop + Send>(
    rt: &R,
    alloc: Global,
    held: &Held<'_>,
) -> Result<String, AllocError> {
    let gate = HoldGate::new(alloc, held.holds, TURNS).expect(rt, "memory");
    let files = only_image(alloc, wrap(alloc, COUNTS)?)?;
    let got = run_gated(rt, alloc, held.line, files, &SOUND, &gate)?;
    let report = str::from_utf8(got.report.bytes()).expect(rt, "text");
    assert!(rt; gate.all_held(), "a hold did not hold at {report}");
    assert_eq!(rt; got.answer, Answer::Exit(0), "at {report}");
    String::from_str(alloc, report)
}

/// Checks what the numbers of such a report keep.
fn check_counts<R: Abort>(rt: &R, held: &Held<'_>, report: &str) {
    let told = numbers(report);
    let (executed, skipped) = (told[0], told[1]);
    let (refused, ran, left, full) = (told[5], told[6], told[7], told[13]);
    let columns = told[8..13]
        .iter()
        .fold(0, |sum: u64, n| sum.wrapping_add(*n));
    assert_eq!(rt; executed.wrapping_add(skipped), 13, "at {report}");
    assert_eq!(rt; (told[2], told[4]), (held.asked, held.made), "at {report}");
    assert_eq!(rt; (refused, full), (0, 0), "at {report}");
    assert_eq!(rt; ran.wrapping_add(left), held.made, "at {report}");
    assert_eq!(rt; columns, ran, "at {report}");
    assert!(rt; ran >= held.least, "at {report}");
    assert!(rt;
        report.starts_with(held.begins) && report.ends_with(held.ends),
        "at {report}"
    );
}

static HELD_RUNS: [Held<'static>; 4] = [
    // A worker is held up where it has taken job 0 until job 1 is done, and the walk's end until both are done.
    Held {
        line: TWO,
        holds: &[
            hold!(Taken 0 until Done 1),
            hold!(Ended 0 until Done 0),
            hold!(Ended 0 until Done 1),
        ],
        asked: 4,
        made: 4,
        least: 2,
        begins: "asc: executed ",
        ends: "\n",
    },
    // The walk is held up at its third visit until the jobs 0 and 1 are done.
    Held {
        line: TWO,
        holds: &[hold!(Visit 3 until Done 0), hold!(Visit 3 until Done 1)],
        asked: 4,
        made: 4,
        least: 2,
        begins: "asc: executed 7 skipped 6 asked 4 hits 2 made 4 refused 0\n",
        ends: "\n",
    },
    // The same, and a jump goes from the third visit to the end.
    Held {
        line: JOINED,
        holds: &[hold!(Visit 3 until Done 0), hold!(Visit 3 until Done 1)],
        asked: 3,
        made: 3,
        least: 2,
        begins: "asc: executed 7 skipped 6 asked 3 hits 1 made 3 refused 0\n",
        ends: "\n",
    },
    // Workers are held up where they have traced a job until job 3 is taken, and the walk's end until all are done.
    Held {
        line: FOUR,
        holds: &[
            hold!(Traced 0 until Taken 3),
            hold!(Traced 1 until Taken 3),
            hold!(Traced 2 until Taken 3),
            hold!(Ended 0 until Done 0),
            hold!(Ended 0 until Done 1),
            hold!(Ended 0 until Done 2),
            hold!(Ended 0 until Done 3),
        ],
        asked: 4,
        made: 4,
        least: 4,
        begins: "asc: executed ",
        ends: "asc: ran 4 left 0 stored 4 known 0 empty 0 dropped 0 stopped 0 full 0\n",
    },
];

#[test]
fn held_workers(rt: HostRuntime) -> Result<(), Fail> {
    for held in &HELD_RUNS {
        count_held(&rt, rt.alloc(), held)?;
    }
    Ok(())
}

/// Workers run where no numbers are reported too: the walk's end is held up until one is done with a job.
#[test]
fn unreported_workers(rt: HostRuntime) -> Result<(), Fail> {
    let alloc = rt.alloc();
    let line = "asc run image --pc 10008 --guess stride --ahead 2 --workers 2";
    let gate = HoldGate::new(alloc, &[end_until(0)], TURNS).expect(&rt, "memory");
    let files = only_image(alloc, wrap(alloc, COUNTS)?)?;
    let got = run_gated(&rt, alloc, line, files, &SOUND, &gate)?;
    assert!(rt; gate.all_held(), "no worker ran");
    assert_eq!(rt;
        (got.answer, got.report.bytes().len()),
        (Answer::Exit(0), 0)
    );
    Ok(())
}

/// The points at which a worker is held up until the walk has ended, each with every job. The walk's end waits until it
/// has come to that point.
static UNTIL_END: [Point; 3] = [Point::Taken, Point::Traced, Point::Done];

#[test]
fn held_until_the_end(rt: HostRuntime) -> Result<(), Fail> {
    for at in UNTIL_END {
        for ticket in 0..4 {
            let held = Held {
                line: TWO,
                holds: &[until_end(at, ticket), end_until_at(at, ticket)],
                asked: 4,
                made: 4,
                least: 1,
                begins: "asc: executed ",
                ends: "\n",
            };
            count_held(&rt, rt.alloc(), &held)?;
        }
    }
    Ok(())
}

/// Runs of the counting loop without workers, and their reports.
static ALONE: [(&str, &str); 4] = [
    (
        "asc run image --pc 10008 --guess stride --ahead 2 --report",
        "asc: executed 7 skipped 6 asked 4 hits 2 made 4 refused 0\n",
    ),
    (
        "asc run image --pc 10008 --guess both --ahead 2 --report",
        "asc: executed 5 skipped 8 asked 4 hits 3 made 8 refused 0\n",
    ),
    (
        "asc run image --pc 10008 --guess stride --ahead 2 --join --report",
        "asc: executed 7 skipped 6 asked 3 hits 1 made 3 refused 0\n",
    ),
    ("asc run image --pc 10008 --guess stride --ahead 2", ""),
];

/// In rounds the report is that without workers, for each number of these.
#[test]
fn in_rounds(rt: HostRuntime) -> Result<(), Fail> {
    let alloc = rt.alloc();
    for (alone, report) in &ALONE {
        for workers in ["1", "2", "3", "64"] {
            let line = format!(in alloc; "{alone} --workers {workers} --rounds")?;
            let file = wrap(alloc, COUNTS)?;
            let want = Want { report, ..QUIET };
            check(&rt, alloc, line.as_str(), file, &SOUND, &want)?;
        }
    }
    Ok(())
}

/// A job of a round is held up where it was traced, until another one was.
fn traced_until(ticket: u64, other: u64) -> Hold {
    Hold {
        at: Point::Traced,
        ticket,
        until: Point::Traced,
        other,
    }
}

/// Lanes run beside one another, one of them in the run's own thread, so three workers make four. Each round's tickets go
/// on from those before. Of the second visit the jobs are 0 to 3, of the third one 4 and 5. One thread alone would wait for
/// all turns.
#[test]
fn held_rounds(rt: HostRuntime) -> Result<(), Fail> {
    let alloc = rt.alloc();
    let (alone, report) = ALONE[1];
    let pairs = [
        traced_until(0, 1),
        traced_until(1, 0),
        traced_until(4, 5),
        traced_until(5, 4),
    ];
    let four = [
        traced_until(0, 3),
        traced_until(1, 3),
        traced_until(2, 3),
        traced_until(3, 0),
    ];
    for (workers, holds) in [("1", pairs), ("2", pairs), ("3", four)] {
        let line = format!(in alloc; "{alone} --workers {workers} --rounds")?;
        let gate = HoldGate::new(alloc, &holds, TURNS).expect(&rt, "memory");
        let files = only_image(alloc, wrap(alloc, COUNTS)?)?;
        let got = run_gated(&rt, alloc, line.as_str(), files, &SOUND, &gate)?;
        assert!(rt; gate.all_held(), "a lane ran alone, of {workers} workers");
        assert_eq!(rt;
            (got.answer, got.report.bytes()),
            (Answer::Exit(0), report.as_bytes())
        );
    }
    Ok(())
}
