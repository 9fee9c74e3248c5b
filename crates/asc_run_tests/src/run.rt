//! Walks.
ghost use Rattle.std.specs.Prelude.{◌≡◌, ◌<◌, ◌^◌};
ghost use Rattle.asc_run.specs.Helped.{HasRoom};
ghost use Rattle.asc_run.specs.Visits.{HasBounds};

use asc_calls::Devices;
use asc_depvec::Tracer;
use asc_elf::read;
use asc_find::{Bare, Finder, Helper, ListFinder, Noted, Nothing};
use asc_model::{Fault, FaultKind, MOST_STEPS, RunCounts, Version};
use asc_outside::{CountSink, Steps, SureSource};
use asc_run::{Ended, Recognised, Settings, Walk};
use asc_seek::Seeking;
use asc_shape::{Guess, Shape, Snapshot, State};
use asc_traj::{Entry, Never, Stop, trace};
use std::alloc::Global;
use std::marker::Brand;
use std::process::Abort;
use std::sync::Arc;
use std::sync::ledger::{Blank, Ledger};

/// An executable but for its code, of 28 bytes, which is loaded and entered at 0x10000.
pub(crate) const HEAD: [u8; 84] = [
    0x7F, 0x45, 0x4C, 0x46, 0x01, 0x01, 0x01, 0x00, 0x00, 0x00, 0x00, 0x00, 0x00, 0x00, 0x00, 0x00,
    0x02, 0x00, 0xF3, 0x00, 0x01, 0x00, 0x00, 0x00, 0x00, 0x00, 0x01, 0x00, 0x34, 0x00, 0x00, 0x00,
    0x00, 0x00, 0x00, 0x00, 0x00, 0x00, 0x00, 0x00, 0x34, 0x00, 0x20, 0x00, 0x01, 0x00, 0x00, 0x00,
    0x00, 0x00, 0x00, 0x00, 0x01, 0x00, 0x00, 0x00, 0x54, 0x00, 0x00, 0x00, 0x00, 0x00, 0x01, 0x00,
    0x00, 0x00, 0x01, 0x00, 0x1C, 0x00, 0x00, 0x00, 0x1C, 0x00, 0x00, 0x00, 0x07, 0x00, 0x00, 0x00,
    0x04, 0x00, 0x00, 0x00,
];

/// ADDI x17, x0, 93; ADDI x10, x0, 7; ECALL.
const EXIT_SEVEN: [u32; 7] = [0x05D0_0893, 0x0070_0513, 0x0000_0073, 0, 0, 0, 0];

/// The same, with no instruction in place of the third.
const ILLEGAL: [u32; 7] = [0x05D0_0893, 0x0070_0513, 0, 0, 0, 0, 0];

/// A loop of two instructions from 0x10008 on, which counts x5 from 0 to 4, and then an end with code 0.
pub(crate) const COUNTING: [u32; 7] = [
    0x0000_0293,
    0x0040_0313,
    0x0012_8293,
    0xFE62_9EE3,
    0x05D0_0893,
    0x0000_0513,
    0x0000_0073,
];

/// The same from 0 to 131,072, which is longer than the first stretch of a search.
const COUNTING_LONG: [u32; 7] = [
    0x0000_0293,
    0x0002_0337,
    0x0012_8293,
    0xFE62_9EE3,
    0x05D0_0893,
    0x0000_0513,
    0x0000_0073,
];

/// Fails where what is to be noted is out of its bounds.
fn check_bounds<R: Abort>(rt: &R, recognised: Recognised)
    ensures { HasBounds recognised }
{
    match recognised {
        Recognised::Nowhere | Recognised::At(_) => {}
        Recognised::Chosen { profile, least } => {
            assert!(rt; profile >= 2);
            assert!(rt; profile <= 65_536);
            assert!(rt; least >= 2);
            assert!(rt; least <= 65_536);
        }
        Recognised::Sought(seeking) => {
            assert!(rt; seeking.least >= 2);
            assert!(rt; seeking.least <= 65_536);
            assert!(rt; seeking.least_lap >= 1);
            assert!(rt; seeking.least_lap <= 1 << 40);
            assert!(rt; seeking.ahead >= 1);
            assert!(rt; seeking.ahead <= 64);
        }
    }
}

/// How a program with 64 KiB of memory and no input ends, and its numbers. A second call of `go` changes neither.
pub(crate) fn run<H: Helper, L: Ledger, R: Abort>(
    rt: &R,
    alloc: Global,
    blank: Blank,
    words: &[u32; 7],
    settings: Settings,
    helper: &mut H,
) -> (Ended, RunCounts)
    requires name { blank.name ≡ L.name }
    requires parts { blank.parts ≡ L.parts }
    requires some { 0 < L.parts }
    requires room { HasRoom (2 ^ 61) (H.aid helper.old) }
{
    assert!(rt; settings.limit <= MOST_STEPS);
    check_bounds(rt, settings.recognised);
    let mut file = HEAD.to_vec(alloc).expect(rt, "memory");
    for word in words {
        file.extend_from_slice(&word.to_le_bytes())
            .expect(rt, "memory");
    }
    let image = read(&file, 65_536, Version::One).expect(rt, "an image");
    let mut walk = Walk::new(alloc, &image, settings).expect(rt, "memory");
    let mut steps = Steps::<L>::new(blank);
    let input = SureSource::new(Vec::new(alloc));
    let mut devices = Devices::new(input, CountSink::new(), CountSink::new());
    let ended = walk.go(helper, &mut devices, &mut steps);
    let counts = walk.counts();
    let again = walk.go(helper, &mut devices, &mut steps);
    assert_eq!(rt; again, ended);
    assert_eq!(rt; walk.counts(), counts);
    (ended, counts)
}

#[test]
fn runs(rt: HostRuntime) {
    let illegal = Fault {
        kind: FaultKind::Illegal,
        pc: 0x10008,
        value: 0,
    };
    let nowhere = Recognised::Nowhere;
    let at = Recognised::At(0x10008);
    let chosen = |least| Recognised::Chosen { profile: 6, least };
    let sought = Recognised::Sought(Seeking {
        least: 2,
        least_lap: 2,
        ahead: 1,
    });
    // The code, the limit and the address, and then how the run ends, its count, and how often a jump was asked for.
    for (words, limit, recognised, ended, count, asked) in [
        (EXIT_SEVEN, MOST_STEPS, nowhere, Ended::Exit(7), 3, 0),
        (EXIT_SEVEN, 3, nowhere, Ended::Exit(7), 3, 0),
        (EXIT_SEVEN, 2, nowhere, Ended::Limit, 2, 0),
        (EXIT_SEVEN, 0, nowhere, Ended::Limit, 0, 0),
        (EXIT_SEVEN, MOST_STEPS, chosen(2), Ended::Exit(7), 3, 0),
        (ILLEGAL, 3, nowhere, Ended::Fault(illegal), 2, 0),
        (ILLEGAL, 3, at, Ended::Fault(illegal), 2, 1),
        (ILLEGAL, 3, chosen(2), Ended::Fault(illegal), 2, 0),
        (COUNTING, MOST_STEPS, nowhere, Ended::Exit(0), 13, 0),
        (COUNTING, MOST_STEPS, at, Ended::Exit(0), 13, 4),
        (COUNTING, 8, at, Ended::Limit, 8, 3),
        (
            COUNTING,
            MOST_STEPS,
            Recognised::At(0x1001C),
            Ended::Exit(0),
            13,
            0,
        ),
        (COUNTING, MOST_STEPS, chosen(2), Ended::Exit(0), 13, 2),
        (COUNTING, MOST_STEPS, chosen(3), Ended::Exit(0), 13, 0),
        (COUNTING, 7, chosen(2), Ended::Limit, 7, 1),
        (COUNTING, 5, chosen(2), Ended::Limit, 5, 0),
        // The loop is tried from count 65,536 on, for two laps, behind which each visit can have been guessed, and 4,096 steps.
        (
            COUNTING_LONG,
            MOST_STEPS,
            sought,
            Ended::Exit(0),
            262_149,
            2_050,
        ),
        (COUNTING_LONG, 65_550, sought, Ended::Limit, 65_550, 7),
        (COUNTING_LONG, 65_536, sought, Ended::Limit, 65_536, 0),
    ] {
        let mut helper = Bare::new(Nothing::new());
        let settings = Settings { limit, recognised };
        let got = run::<_, Brand, _>(
            &rt,
            rt.alloc(),
            Blank::new(1),
            &words,
            settings,
            &mut helper,
        );
        let counts = RunCounts {
            executed: count,
            skipped: 0,
            asked,
            hits: 0,
        };
        assert_eq!(rt;
            got,
            (ended, counts),
            "with limit {limit} and {recognised:?}"
        );
        assert_eq!(rt; (helper.made(), helper.refused(), helper.full()), (0, 0, 0));
        assert_eq!(rt; helper.finder().asked(), asked);
    }
}

/// The state at which the loop that counts begins.
fn counting<R: Abort>(rt: &R, alloc: Global) -> State {
    let shape = Shape::new(0x10000, 65_536).expect(rt, "a shape");
    let mut state = State::new(alloc, shape).expect(rt, "memory");
    let mut at = 0x10000;
    for word in &COUNTING {
        assert!(rt; state.holds(at, 4));
        state.write(at, &word.to_le_bytes());
        at = at.wrapping_add(4);
    }
    state.set_pc(0x10008);
    state.set_reg(6, 4);
    state
}

/// The entry of so many laps of it from there on, and so many steps.
fn entry_of<R: Abort>(rt: &R, alloc: Global, laps: u64, steps: u64) -> Arc<Entry> {
    assert!(rt; laps >= 1 && steps >= 1);
    let from = counting(rt, alloc);
    let mut tracer = Tracer::new(alloc, from.shape(), 96).expect(rt, "memory");
    let guess = Guess::last(Snapshot::of(alloc, &from).expect(rt, "memory"));
    assert!(rt; guess.shape() == from.shape());
    tracer.start(guess);
    let stop = Stop {
        pc: 0x10008,
        laps,
        span: 100,
    };
    let traced = trace(&mut tracer, &stop, &mut Never);
    assert_eq!(rt; traced.steps, steps);
    Entry::of(alloc, &mut tracer, traced.steps).expect(rt, "memory")
}

#[test]
fn jumps(rt: HostRuntime) {
    let alloc = rt.alloc();
    // The limit, and then how the run ends, and its numbers.
    let cases: [(u64, Ended, RunCounts, &[Option<u64>]); 2] = [
        (
            MOST_STEPS,
            Ended::Exit(0),
            RunCounts {
                executed: 9,
                skipped: 4,
                asked: 3,
                hits: 1,
            },
            &[Some(4), None, None],
        ),
        (
            5,
            Ended::Limit,
            RunCounts {
                executed: 3,
                skipped: 2,
                asked: 2,
                hits: 1,
            },
            &[Some(2), None],
        ),
    ];
    for (limit, ended, counts, replies) in cases {
        let mut list = Vec::new(alloc);
        for (laps, steps) in [(1, 2), (2, 4)] {
            let entry = entry_of(&rt, alloc, laps, steps);
            list.push(entry).expect(&rt, "memory");
        }
        let noted = Noted::new(alloc, ListFinder::new(list), 16).expect(&rt, "memory");
        let mut helper = Bare::new(noted);
        let settings = Settings {
            limit,
            recognised: Recognised::At(0x10008),
        };
        let got = run::<_, Brand, _>(&rt, alloc, Blank::new(1), &COUNTING, settings, &mut helper);
        assert_eq!(rt; got, (ended, counts), "with limit {limit}");
        assert_eq!(rt; helper.finder().replies(), replies);
        assert!(rt; helper.finder().are_all());
    }
}
