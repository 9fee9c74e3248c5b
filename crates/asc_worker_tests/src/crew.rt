ghost use Rattle.std.specs.Prelude.{◌≡◌, ◌+◌, ◌<◌, ◌≤◌};

use asc_calls::no_devices;
use asc_depvec::Tracer;
use asc_elf::{Image, read};
use asc_find::Guessing;
use asc_live::{Crew, OpenCrew, Worked, go_beside};
use asc_model::{MOST_STEPS, RunCounts, Version};
use asc_outside::{Gate, Hold, HoldGate, Memory, Open, Point, Steps};
use asc_run::{Ended, Recognised, Settings, Walk};
use asc_shape::{Guess, Snapshot, State};
use asc_traj::{Entry, Made, Never, Stop};
use std::alloc::Global;
use std::marker::Brand;
use std::process::Abort;
use std::sync::ledger::{Blank, Ledger};
use std::sync::{Arc, Wait};
use std::thread::Threads;

/// An executable of 28 bytes of code, which is loaded and entered at 0x10000: a loop of two instructions from 0x10008 on,
/// which counts x5 from 0 to 4, and then an end with code 0.
const COUNTING: [u8; 112] = [
    0x7F, 0x45, 0x4C, 0x46, 0x01, 0x01, 0x01, 0x00, 0x00, 0x00, 0x00, 0x00, 0x00, 0x00, 0x00, 0x00,
    0x02, 0x00, 0xF3, 0x00, 0x01, 0x00, 0x00, 0x00, 0x00, 0x00, 0x01, 0x00, 0x34, 0x00, 0x00, 0x00,
    0x00, 0x00, 0x00, 0x00, 0x00, 0x00, 0x00, 0x00, 0x34, 0x00, 0x20, 0x00, 0x01, 0x00, 0x00, 0x00,
    0x00, 0x00, 0x00, 0x00, 0x01, 0x00, 0x00, 0x00, 0x54, 0x00, 0x00, 0x00, 0x00, 0x00, 0x01, 0x00,
    0x00, 0x00, 0x01, 0x00, 0x1C, 0x00, 0x00, 0x00, 0x1C, 0x00, 0x00, 0x00, 0x07, 0x00, 0x00, 0x00,
    0x04, 0x00, 0x00, 0x00, 0x93, 0x02, 0x00, 0x00, 0x13, 0x03, 0x40, 0x00, 0x93, 0x82, 0x12, 0x00,
    0xE3, 0x9E, 0x62, 0xFE, 0x93, 0x08, 0xD0, 0x05, 0x13, 0x05, 0x00, 0x00, 0x73, 0x00, 0x00, 0x00,
];

/// Guesses by the stride, of two visits ahead.
const GUESSING: Guessing = Guessing {
    last: false,
    stride: true,
    laps: 1,
    span: 100,
    ahead: 2,
    join: false,
};

/// The entry of the image's lap that begins at such an x5.
fn lap_from(alloc: Global, image: &Image<'_>, x5: u32) -> Result<Arc<Entry>, Memory> {
    let mut state = State::new(alloc, image.shape())?;
    image.put(&mut state);
    state.set_pc(0x10008);
    state.set_reg(5, x5);
    state.set_reg(6, 4);
    let mut tracer = Tracer::new(alloc, state.shape(), 96)?;
    let guess = Guess::last(Snapshot::of(alloc, &state)?);
    let stop = Stop {
        pc: 0x10008,
        laps: 1,
        span: 100,
    };
    match Entry::traced(alloc, &mut tracer, guess, &stop, &mut Never) {
        Made::One(entry) => Ok(entry),
        Made::Empty | Made::Stopped | Made::Refused => Err(Memory),
    }
}

/// How that program goes beside so many workers, where the laps from these x5 are known, and its numbers.
fn count_beside<L: Ledger, R: Abort + Threads + Wait + Sync + Copy + Drop + Send, G: Gate + Sync>(
    rt: &R,
    alloc: Global,
    blank: Blank,
    workers: usize,
    known: &[u32],
    gate: &G,
) -> (Worked, RunCounts)
    requires name { blank.name ≡ L.name }
    requires parts { blank.parts ≡ L.parts }
    requires some { 0 < L.parts }
    requires workers { (1 ≤ workers) × (workers ≤ 64) }
{
    let image = read(&COUNTING, 65_536, Version::One).expect(rt, "an image");
    let settings = Settings {
        limit: MOST_STEPS,
        recognised: Recognised::At(0x10008),
    };
    let mut walk = Walk::new(alloc, &image, settings).expect(rt, "memory");
    let mut first = Vec::new(alloc);
    for &x5 in known {
        let entry = lap_from(alloc, &image, x5).expect(rt, "memory");
        first.push(entry).expect(rt, "memory");
    }
    let worked = go_beside(
        rt,
        alloc,
        &mut walk,
        GUESSING,
        Crew { workers, queue: 4 },
        &first,
        gate,
        &mut no_devices(alloc),
        &mut Steps::<L>::new(blank),
    );
    (worked.expect(rt, "memory"), walk.counts())
}

#[test]
fn counts(rt: HostRuntime) {
    for workers in 1..3 {
        let (worked, counts) = count_beside::<Brand, _, _>(
            &rt,
            rt.alloc(),
            Blank::new(1),
            workers,
            &[],
            &Open,
        );
        assert_eq!(rt; worked.ended, Ended::Exit(0));
        assert!(rt; counts.executed < 14 && counts.skipped < 14);
        assert_eq!(rt; counts.executed + counts.skipped, 13);
        assert_eq!(rt; counts.asked, 4);
        assert!(rt; counts.hits <= counts.asked);
        let tally = worked.taken.tally;
        assert!(rt; worked.made < 5 && worked.full < 5 && tally.ran < 5 && worked.taken.left < 5);
        assert_eq!(rt; tally.ran + worked.taken.left, worked.made);
        assert_eq!(rt;
            tally.stored + tally.known + tally.empty + tally.dropped + tally.stopped,
            tally.ran
        );
        // From the second visit on, one guess more than there are visits: two at the second, and one at each later one.
        let due = if counts.asked < 2 { 0 } else { counts.asked };
        assert_eq!(rt; worked.refused, 0);
        assert_eq!(rt; worked.made + worked.full, due);
    }
}

/// The only worker waits in its first job for the walk's end.
static HOLDS: [Hold; 2] = [
    Hold {
        at: Point::Taken,
        ticket: 0,
        until: Point::Ended,
        other: 0,
    },
    Hold {
        at: Point::Ended,
        ticket: 0,
        until: Point::Taken,
        other: 0,
    },
];

/// The only worker waits in its first job for the walk's end. So the walk finds what was known: laps 2 and 3, two steps
/// each.
#[test]
fn entries_are_known(rt: HostRuntime) {
    let gate = HoldGate::new(rt.alloc(), &HOLDS, 1_000_000).expect(&rt, "memory");
    let (worked, counts) = count_beside::<Brand, _, _>(
        &rt,
        rt.alloc(),
        Blank::new(1),
        1,
        &[1, 2],
        &gate,
    );
    assert!(rt; gate.all_held());
    assert_eq!(rt; worked.ended, Ended::Exit(0));
    assert_eq!(rt; (counts.executed, counts.skipped), (9, 4));
    assert_eq!(rt; (counts.asked, counts.hits), (4, 2));
}

/// How that program goes beside an open crew of one worker, with these points held up, and its numbers. They are the run's
/// own.
fn count_again<L: Ledger, R: Abort + Threads + Wait + Sync + Copy + Drop + Send>(
    rt: &R,
    alloc: Global,
    blank: Blank,
    opened: &mut OpenCrew<R>,
    holds: &[Hold],
) -> (Worked, RunCounts)
    requires name { blank.name ≡ L.name }
    requires parts { blank.parts ≡ L.parts }
    requires some { 0 < L.parts }
    requires runs { 1 ≤ opened.old.runs }
    ensures { opened.new.runs + 1 ≡ opened.old.runs }
{
    let image = read(&COUNTING, 65_536, Version::One).expect(rt, "an image");
    let settings = Settings {
        limit: MOST_STEPS,
        recognised: Recognised::At(0x10008),
    };
    let mut walk = Walk::new(alloc, &image, settings).expect(rt, "memory");
    let gate = HoldGate::new(alloc, holds, 1_000_000).expect(rt, "memory");
    let worked = opened.go(
        rt,
        alloc,
        &mut walk,
        &gate,
        &mut no_devices(alloc),
        &mut Steps::<L>::new(blank),
    );
    assert!(rt; worked.refused > 0 || gate.all_held());
    let counts = walk.counts();
    assert_eq!(rt;
        (worked.ended, walk.count(), counts.asked),
        (Ended::Exit(0), 13, 4)
    );
    let tally = worked.taken.tally;
    assert!(rt; worked.made < 5 && worked.full < 5 && tally.ran < 5 && worked.taken.left < 5);
    assert_eq!(rt; tally.ran + worked.taken.left, worked.made);
    assert!(rt; worked.refused > 0 || worked.made + worked.full == 4);
    (worked, counts)
}

/// In the first run the walk waits at its second visit until the worker is done with its first job. In the last one the
/// worker waits in its first job for the walk's end. So the walk finds there what an earlier run has stored.
#[test]
fn three_runs(rt: HostRuntime) {
    let alloc = rt.alloc();
    let image = read(&COUNTING, 65_536, Version::One).expect(&rt, "an image");
    let crew = Crew {
        workers: 1,
        queue: 4,
    };
    let mut opened = OpenCrew::open(alloc, rt, image.shape(), GUESSING, crew, &[], 3).expect(
        &rt, "memory",
    );
    let waits = [Hold {
        at: Point::Visit,
        ticket: 2,
        until: Point::Done,
        other: 0,
    }];
    let (first, _) = count_again::<Brand, _>(&rt, alloc, Blank::new(1), &mut opened, &waits);
    count_again::<Brand, _>(&rt, alloc, Blank::new(1), &mut opened, &[]);
    let (_, last) = count_again::<Brand, _>(&rt, alloc, Blank::new(1), &mut opened, &HOLDS);
    assert!(rt; first.refused > 0 || first.taken.tally.stored == 0 || last.hits > 0);
}
