//! Walks whose helper follows its guesses itself.
ghost use Rattle.std.specs.Prelude.{◌≡◌, ◌≤◌, ◌<◌, ◌^◌, IsNone};
ghost use Rattle.asc_run.specs.Helped.{HasRoom};
ghost use Rattle.asc_run.specs.SerialHelper.{aid_of};

use crate::run::{COUNTING, HEAD, run};
use asc_calls::Devices;
use asc_elf::read;
use asc_find::{Finder, Guessing, Helper};
use asc_guess::Kind;
use asc_model::{MOST_AHEAD, MOST_STEPS, RunCounts, Version};
use asc_outside::{CountSink, Steps, SureSource};
use asc_run::{Ended, Recognised, Serial, Settings, Walk};
use asc_shape::{Shape, State};
use asc_shard::Inserted;
use asc_traj::Made;
use std::alloc::Global;
use std::marker::Brand;
use std::process::Abort;
use std::sync::Arc;
use std::sync::ledger::{Blank, Ledger};
use std::test::Fail;

/// The kinds that are on, two visits ahead, and whether entries are joined.
fn two_ahead(last: bool, stride: bool, join: bool) -> Guessing
    ensures laps { 1 ≤ result.laps }
    ensures span { 1 ≤ result.span }
    ensures ahead { result.ahead ≤ MOST_AHEAD }
{
    Guessing {
        last,
        stride,
        laps: 1,
        span: 1_000_000,
        ahead: 2,
        join,
    }
}

/// Of the loop that counts: which kinds are on, whether entries are joined, and the limit, and then how the run ends, its
/// numbers, and how many guesses were made.
static RUNS: [(bool, bool, bool, u64, Ended, RunCounts, u64); 7] = [
    (
        false,
        true,
        false,
        MOST_STEPS,
        Ended::Exit(0),
        RunCounts {
            executed: 7,
            skipped: 6,
            asked: 4,
            hits: 2,
        },
        4,
    ),
    (
        true,
        true,
        false,
        MOST_STEPS,
        Ended::Exit(0),
        RunCounts {
            executed: 5,
            skipped: 8,
            asked: 4,
            hits: 3,
        },
        8,
    ),
    (
        false,
        true,
        false,
        12,
        Ended::Limit,
        RunCounts {
            executed: 6,
            skipped: 6,
            asked: 4,
            hits: 2,
        },
        4,
    ),
    (
        false,
        true,
        false,
        11,
        Ended::Limit,
        RunCounts {
            executed: 9,
            skipped: 2,
            asked: 4,
            hits: 1,
        },
        4,
    ),
    (
        false,
        false,
        false,
        MOST_STEPS,
        Ended::Exit(0),
        RunCounts {
            executed: 13,
            skipped: 0,
            asked: 4,
            hits: 0,
        },
        0,
    ),
    (
        false,
        true,
        true,
        MOST_STEPS,
        Ended::Exit(0),
        RunCounts {
            executed: 7,
            skipped: 6,
            asked: 3,
            hits: 1,
        },
        3,
    ),
    (
        false,
        true,
        true,
        11,
        Ended::Limit,
        RunCounts {
            executed: 9,
            skipped: 2,
            asked: 4,
            hits: 1,
        },
        4,
    ),
];

/// Where an allocation fails in a visit, that is counted, and the answer is the same. Where no entries are joined, no more
/// is guessed than without, and the helper is asked as often. One allocation fails at most, so that the numbers of one run
/// alone may be others.
#[test]
fn runs_alone(rt: HostRuntime) {
    let alloc = rt.alloc();
    let shape = Shape::new(0x10000, 65_536).expect(&rt, "a shape");
    let mut refused_runs: u64 = 0;
    for (last, stride, join, limit, ended, counts, made) in RUNS {
        let guessing = two_ahead(last, stride, join);
        let mut serial = Serial::new(alloc, shape, guessing).expect(&rt, "memory");
        let settings = Settings {
            limit,
            recognised: Recognised::At(0x10008),
        };
        let got = run::<_, Brand, _>(&rt, alloc, Blank::new(1), &COUNTING, settings, &mut serial);
        assert_eq!(rt; got.0, ended);
        assert_eq!(rt;
            got.1.executed.checked_add(got.1.skipped),
            counts.executed.checked_add(counts.skipped)
        );
        if serial.refused() == 0 {
            assert_eq!(rt;
                (got.1, serial.made()),
                (counts, made),
                "with limit {limit}"
            );
        } else {
            assert!(rt; join || (got.1.asked == counts.asked && serial.made() <= made));
            refused_runs = refused_runs.saturating_add(1);
        }
        assert_eq!(rt; serial.full(), 0);
    }
    assert!(rt; refused_runs <= 1);
}

/// A run with no kind on, which has what a run with strides kept, makes no guess and takes the same jumps. Where memory
/// was wanting in the first run, it may have kept less.
#[test]
fn runs_preloaded(rt: HostRuntime) {
    let alloc = rt.alloc();
    let shape = Shape::new(0x10000, 65_536).expect(&rt, "a shape");
    let settings = Settings {
        limit: MOST_STEPS,
        recognised: Recognised::At(0x10008),
    };
    let mut first = Serial::new(alloc, shape, two_ahead(false, true, false)).expect(&rt, "memory");
    let _ = run::<_, Brand, _>(&rt, alloc, Blank::new(1), &COUNTING, settings, &mut first);
    let mut second = Serial::new(alloc, shape, two_ahead(false, false, false)).expect(
        &rt, "memory",
    );
    let kept = first.content();
    for i in 0..kept.len() {
        let entry = Arc::try_clone(kept.entry(i)).expect(&rt, "memory");
        assert_eq!(rt; second.preload(entry), Inserted::Stored);
    }
    let got = run::<_, Brand, _>(&rt, alloc, Blank::new(1), &COUNTING, settings, &mut second);
    assert!(rt; first.refused().saturating_add(second.refused()) <= 1);
    assert_eq!(rt; (got.0, second.made()), (Ended::Exit(0), 0));
    if first.refused() == 0 {
        assert_eq!(rt;
            got.1,
            RunCounts {
                executed: 7,
                skipped: 6,
                asked: 4,
                hits: 2,
            }
        );
    }
}

/// It reads a byte, counts x5 from there up to 4 in a loop of two instructions from 0x10020 on, and ends with code 0.
static READING: [u32; 13] = [
    0x03F0_0893,
    0x0000_0513,
    0x0001_05B7,
    0x1005_8593,
    0x0010_0613,
    0x0000_0073,
    0x0005_C283,
    0x0040_0313,
    0x0012_8293,
    0xFE62_9EE3,
    0x05D0_0893,
    0x0000_0513,
    0x0000_0073,
];

/// Fails where a helper has counted so much that it has no room for a run.
fn check_room<R: Abort>(rt: &R, serial: &Serial)
    ensures { HasRoom (2 ^ 61) (aid_of serial.now) }
{
    assert!(rt; serial.asked() < 1 << 40);
    assert!(rt; serial.given() < 1 << 40);
    assert!(rt; serial.made() < 1 << 40);
    assert!(rt; serial.full() == 0);
}

/// Runs a walk that has not begun over an input of this byte. It is to end with code 0 and these numbers.
fn check_run<R: Abort, L: Ledger>(
    rt: &R,
    alloc: Global,
    walk: &mut Walk,
    serial: &mut Serial,
    byte: u8,
    steps: &mut Steps<L>,
    want: RunCounts,
)
    requires { IsNone walk.old.ended }
    ensures { walk.new.state.shape ≡ walk.old.state.shape }
{
    check_room(rt, serial);
    let mut input = Vec::new(alloc);
    input.push(byte).expect(rt, "memory");
    let mut devices = Devices::new(SureSource::new(input), CountSink::new(), CountSink::new());
    let ended = walk.go(serial, &mut devices, steps);
    assert_eq!(rt; ended, Ended::Exit(0));
    let got = walk.counts();
    assert_eq!(rt; walk.count(), want.executed.saturating_add(want.skipped));
    if serial.refused() == 0 {
        assert_eq!(rt; got, want, "input {byte}");
    }
}

/// A walk begins anew over another input, and its helper with the entries of the run before. So the second run makes two
/// jumps, of which it makes none on its own.
fn check_again<R: Abort, L: Ledger>(rt: &R, alloc: Global, blank: Blank) -> Result<(), Fail>
    requires name { blank.name ≡ L.name }
    requires parts { blank.parts ≡ L.parts }
    requires some { 0 < L.parts }
{
    let mut file = HEAD.to_vec(alloc)?;
    assert!(rt; file.len() == 84);
    // How much of the file is code, and in memory.
    file[68] = 52;
    file[72] = 52;
    for word in &READING {
        file.extend_from_slice(&word.to_le_bytes())?;
    }
    let image = read(&file, 65_536, Version::One).expect(rt, "an image");
    let settings = Settings {
        limit: MOST_STEPS,
        recognised: Recognised::At(0x10020),
    };
    let mut walk = Walk::new(alloc, &image, settings).expect(rt, "memory");
    let mut serial = Serial::new(alloc, image.shape(), two_ahead(false, true, false)).expect(
        rt, "memory",
    );
    let mut steps = Steps::<L>::new(blank);
    let first = RunCounts {
        executed: 13,
        skipped: 6,
        asked: 4,
        hits: 2,
    };
    check_run(rt, alloc, &mut walk, &mut serial, 0, &mut steps, first);
    walk.again(&image);
    serial.begin();
    let second = RunCounts {
        executed: 9,
        skipped: 6,
        asked: 2,
        hits: 2,
    };
    check_run(rt, alloc, &mut walk, &mut serial, 2, &mut steps, second);
    assert!(rt; serial.refused() > 0 || serial.made() == 2);
    Ok(())
}

#[test]
fn runs_again(rt: HostRuntime) -> Result<(), Fail> {
    check_again::<_, Brand>(&rt, rt.alloc(), Blank::new(1))
}

/// A visit's calls, as another runner makes them, which can do none of the jobs.
#[test]
fn plans(rt: HostRuntime) {
    let alloc = rt.alloc();
    let shape = Shape::new(0x10000, 65_536).expect(&rt, "a shape");
    let mut serial = Serial::new(alloc, shape, two_ahead(true, true, false)).expect(&rt, "memory");
    let mut state = State::new(alloc, shape).expect(&rt, "memory");
    assert_eq!(rt; serial.plan(&mut state, 1), 0);
    assert!(rt; serial.pair().is_none());
    assert_eq!(rt; serial.plan(&mut state, 2), 4);
    assert!(rt; serial.pair().is_some());
    // The jobs' kinds, and how far ahead they are.
    for (i, job) in [
        (Kind::Last, 1),
        (Kind::Stride, 1),
        (Kind::Last, 2),
        (Kind::Stride, 2),
    ]
    .into_iter()
    .enumerate()
    {
        assert_eq!(rt; serial.job(i), job);
    }
    serial.settle(Made::Empty);
    serial.settle(Made::Refused);
    assert_eq!(rt;
        (serial.made(), serial.refused(), serial.asked()),
        (4, 1, 0)
    );
    assert_eq!(rt; serial.content().len(), 0);
}
