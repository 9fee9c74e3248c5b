//! Lanes, which run the jobs of a visit beside one another.
ghost use Rattle.std.specs.Prelude.{◌≡◌};

use crate::work::counting;
use asc_guess::Kind;
use asc_outside::{Hold, HoldGate, Open, Point};
use asc_shape::Snapshot;
use asc_traj::Made;
use asc_work::Lanes;
use std::alloc::Global;
use std::process::Abort;
use std::sync::Arc;
use std::test::Fail;
use std::thread::Threads;

/// A round: the pc and x5 of the state before the last one, and of that; and its jobs, each with the steps of its entry,
/// or 0 where there is none.
type RoundOf = (
    (u32, u32),
    (u32, u32),
    &'static [(Kind, u32)],
    &'static [u64],
);

static ROUNDS: [RoundOf; 3] = [
    // The guesses go on from 0 and then 1 in x5, which is counted up to 4. A lap is two steps. From 3 on the last lap is
    // run, and two steps more, up to the exit.
    (
        (0x10008, 0),
        (0x10008, 1),
        &[
            (Kind::Stride, 1),
            (Kind::Last, 1),
            (Kind::Stride, 2),
            (Kind::Last, 2),
            (Kind::Stride, 3),
        ],
        &[2, 2, 4, 2, 2],
    ),
    // The pc goes on, to the two steps before the exit, to the exit itself, and to where there is no instruction. The
    // last state runs its last lap.
    (
        (0x10000, 3),
        (0x10008, 3),
        &[
            (Kind::Stride, 1),
            (Kind::Stride, 2),
            (Kind::Stride, 3),
            (Kind::Last, 3),
        ],
        &[2, 0, 0, 4],
    ),
    ((0x10008, 0), (0x10008, 1), &[], &[]),
];

/// How many lanes run a round. Where there are 64 most have no job.
static LANES: [usize; 4] = [1, 2, 3, 64];

/// How many steps the entry of a guess has, or 0 where there is none.
fn steps_of<R: Abort>(rt: &R, made: &Made) -> u64 {
    match made {
        Made::One(entry) => entry.steps(),
        Made::Empty => 0,
        Made::Stopped | Made::Refused => panic!(rt; "stopped or refused"),
    }
}

/// Takes the result of a job, which is there but once.
fn take<R: Abort>(rt: &R, lanes: &mut Lanes, i: usize, steps: u64)
    ensures { lanes.new.shape ≡ lanes.old.shape }
{
    assert!(rt; lanes.has(i));
    let made = lanes.take(i);
    assert_eq!(rt; steps_of(rt, &made), steps);
    assert!(rt; !lanes.has(i));
}

/// Takes the results in the order of the jobs, or the other way round.
fn take_all<R: Abort>(rt: &R, lanes: &mut Lanes, steps: &[u64], forth: bool)
    ensures { lanes.new.shape ≡ lanes.old.shape }
{
    for at in 0..steps.len() {
        let i = if forth { at } else { steps.len() - 1 - at };
        take(rt, lanes, i, steps[i]);
    }
    assert!(rt; !lanes.has(steps.len()));
}

/// Runs the jobs of a round.
fn run_jobs<R: Abort + Threads + Sync>(
    rt: &R,
    lanes: &mut Lanes,
    prev: &Arc<Snapshot>,
    last: &Arc<Snapshot>,
    jobs: &[(Kind, u32)],
)
    requires { last.now.value.shape ≡ lanes.old.shape }
    ensures { lanes.new.shape ≡ lanes.old.shape }
{
    assert!(rt; jobs.len() <= 128);
    if prev.shape() != last.shape() {
        panic!(rt; "two shapes");
    }
    lanes.run(rt, prev, last, jobs, 0, &Open);
}

/// Runs a round twice, and takes its results in both orders.
fn run_round<R: Abort + Threads + Sync>(rt: &R, alloc: Global, number: usize, round: &RoundOf) {
    let ((prev_pc, prev_x5), (pc, x5), jobs, steps) = *round;
    let prev = counting(rt, alloc, 65_536, prev_pc, prev_x5);
    let last = counting(rt, alloc, 65_536, pc, x5);
    assert!(rt; 1 <= number && number <= 64);
    let mut lanes = Lanes::new(alloc, last.shape(), 1, 100, number).expect(rt, "memory");
    run_jobs(rt, &mut lanes, &prev, &last, jobs);
    take_all(rt, &mut lanes, steps, true);
    run_jobs(rt, &mut lanes, &prev, &last, jobs);
    take_all(rt, &mut lanes, steps, false);
}

#[test]
fn rounds(rt: HostRuntime) {
    for number in LANES {
        for round in &ROUNDS {
            run_round(&rt, rt.alloc(), number, round);
        }
    }
}

// Two lanes run beside each other: each of the first two jobs is held up until the other one was traced.
#[test]
fn held_lane(rt: HostRuntime) {
    let alloc = rt.alloc();
    let hold = |ticket, other| Hold {
        at: Point::Traced,
        ticket,
        until: Point::Traced,
        other,
    };
    let gate = HoldGate::new(alloc, &[hold(5, 6), hold(6, 5)], 10_000_000).expect(&rt, "memory");
    let last = counting(&rt, alloc, 65_536, 0x10008, 1);
    let mut lanes = Lanes::new(alloc, last.shape(), 1, 100, 2).expect(&rt, "memory");
    lanes.run(
        &rt,
        &last,
        &last,
        &[(Kind::Last, 1), (Kind::Stride, 1), (Kind::Last, 2)],
        5,
        &gate,
    );
    assert!(rt; gate.all_held());
    take_all(&rt, &mut lanes, &[2, 2, 2], false);
}
