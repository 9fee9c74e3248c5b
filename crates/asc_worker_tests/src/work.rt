//! Workers and their teams.
ghost use Rattle.std.specs.Prelude.{◌≡◌, Some, None, All, length};
ghost use Rattle.asc_model.specs.Tally.{no_jobs};

use asc_cache::{Cache, ListWriter, ShardWriter};
use asc_guess::Kind;
use asc_jobs::{Giver, Job, Jobs};
use asc_model::{Column, Tally};
use asc_outside::{Gate, Hold, HoldGate, Open, Point};
use asc_shape::{Shape, Snapshot, State};
use asc_shard::Shard;
use asc_work::{Flag, Halter, Team, Worker, work_loop};
use crossbeam_utils::sync::{Parker, Unparker};
use std::alloc::Global;
use std::process::Abort;
use std::sync::{Arc, Wait};
use std::test::Fail;
use std::thread::Threads;

/// A loop from 0x10008 on that counts x5 up to 4, two steps a lap; behind it an exit, whose guest call is at 0x10018.
const COUNTING: [u32; 7] = [
    0x0000_0293,
    0x0040_0313,
    0x0012_8293,
    0xFE62_9EE3,
    0x05D0_0893,
    0x0000_0513,
    0x0000_0073,
];

/// A snapshot of that program at a pc, with these x5 and 4 in x6, in memory of this size.
pub(crate) fn counting<R: Abort>(
    rt: &R,
    alloc: Global,
    size: u32,
    pc: u32,
    x5: u32,
) -> Arc<Snapshot> {
    let shape = Shape::new(0x10000, size).expect(rt, "a good shape");
    let mut state = State::new(alloc, shape).expect(rt, "memory");
    let mut at = 0x10000;
    for word in COUNTING {
        assert!(rt; state.holds(at, 4));
        state.write(at, &word.to_le_bytes());
        at = at.wrapping_add(4);
    }
    state.set_pc(pc);
    state.set_reg(5, x5);
    state.set_reg(6, 4);
    Snapshot::of(alloc, &state).expect(rt, "memory")
}

/// A job that guesses the last state as it is.
fn last_job<R: Abort>(rt: &R, last: &Arc<Snapshot>) -> Job {
    Job {
        ticket: 0,
        prev: Arc::try_clone(last).expect(rt, "memory"),
        last: Arc::try_clone(last).expect(rt, "memory"),
        ahead: 1,
        kind: Kind::Last,
    }
}

/// A flag whose halter has asked to stop, or not.
fn flag<R: Abort>(rt: &R, alloc: Global, halted: bool) -> Flag {
    let (mut halter, mut flags) = Halter::open(alloc, 1).expect(rt, "memory");
    if halted {
        halter.halt();
    }
    flags.pop().expect(rt, "a flag")
}

/// What a new worker answers to the same job twice, and its tally.
fn answers<R: Abort>(rt: &R, alloc: Global, pc: u32, halted: bool) -> (Column, Column, Tally) {
    let last = counting(rt, alloc, 65_536, pc, 0);
    let mut shard = Shard::new(alloc, 4).expect(rt, "memory");
    let writer = ListWriter::new(&mut shard);
    let flag = flag(rt, alloc, halted);
    match Worker::new(alloc, last.shape(), 1, 100, writer, flag, false) {
        Ok(mut worker) => {
            let first = worker.run_job(last_job(rt, &last), &Open);
            let second = worker.run_job(last_job(rt, &last), &Open);
            (first, second, worker.take_tally())
        }
        Err(_) => panic!(rt; "no memory"),
    }
}

#[test]
fn one_job(rt: HostRuntime) {
    for (pc, halted, first, second) in [
        (0x10008, false, Column::Stored, Column::Known),
        (0x10008, true, Column::Stopped, Column::Stopped),
        (0x10018, false, Column::Empty, Column::Empty),
        (0x10018, true, Column::Empty, Column::Empty),
    ] {
        let (one, two, tally) = answers(&rt, rt.alloc(), pc, halted);
        assert_eq!(rt; (one, two), (first, second));
        assert_eq!(rt; tally.ran, 2);
        assert_eq!(rt;
            (tally.stored, tally.known),
            if halted || pc == 0x10018 {
                (0, 0)
            } else {
                (1, 1)
            }
        );
    }
}

/// Whether a worker joins entries; its jobs, each by how far ahead its guess is, with what becomes of it; and the steps of
/// the entries that are held then.
type Joins = (bool, &'static [(u32, Column)], &'static [u64]);

/// The guesses go on from 0 and then 1 in x5. The one that is 1 ahead has 2 there, and runs a lap of two steps. The one
/// that is 2 ahead has 3 there, and runs the last lap and two steps more. The one that is 5 ahead has 6 there, and runs a
/// lap, behind which none of the others goes on.
static JOINS: [Joins; 4] = [
    (false, &[(1, Column::Stored), (2, Column::Stored)], &[2, 4]),
    (
        true,
        &[(1, Column::Stored), (2, Column::Stored)],
        &[2, 4, 6],
    ),
    (true, &[(2, Column::Stored), (1, Column::Stored)], &[4, 2]),
    // The entry of the second job is kept once the third job's is known.
    (
        true,
        &[
            (5, Column::Stored),
            (1, Column::Stored),
            (5, Column::Known),
            (2, Column::Stored),
        ],
        &[2, 2, 4, 6],
    ),
];

/// Runs jobs by a new worker, and answers how often it left something out.
fn run_ahead<R: Abort>(
    rt: &R,
    alloc: Global,
    shard: &mut Shard,
    join: bool,
    jobs: &[(u32, Column)],
) -> u64 {
    let prev = counting(rt, alloc, 65_536, 0x10008, 0);
    let last = counting(rt, alloc, 65_536, 0x10008, 1);
    let flag = flag(rt, alloc, false);
    let writer = ListWriter::new(shard);
    match Worker::new(alloc, last.shape(), 1, 100, writer, flag, join) {
        Ok(mut worker) => {
            for (ahead, ran) in jobs {
                let job = Job {
                    ticket: 0,
                    prev: Arc::try_clone(&prev).expect(rt, "memory"),
                    last: Arc::try_clone(&last).expect(rt, "memory"),
                    ahead: *ahead,
                    kind: Kind::Stride,
                };
                assert!(rt; worker.tally().ran < 4);
                assert_eq!(rt; worker.run_job(job, &Open), *ran);
            }
            worker.left_out()
        }
        Err(_) => panic!(rt; "no memory"),
    }
}

#[test]
fn joined_entries(rt: HostRuntime) {
    let alloc = rt.alloc();
    for (join, jobs, steps) in JOINS {
        let mut shard = Shard::new(alloc, 4).expect(&rt, "memory");
        assert_eq!(rt; run_ahead(&rt, alloc, &mut shard, join, jobs), 0);
        assert_eq!(rt; shard.len(), steps.len());
        for (i, count) in steps.iter().enumerate() {
            assert_eq!(rt; shard.entry(i).steps(), *count);
        }
    }
}

/// Pushes a job that guesses the last state as it is.
fn push<R: Abort + Wait>(rt: &R, giver: &mut Giver, last: &Arc<Snapshot>)
    ensures queue { giver.new.queue ≡ giver.old.queue }
    ensures opened { giver.new.opened ≡ giver.old.opened }
{
    assert!(rt; giver.pushed() < 1 << 60);
    let prev = Arc::try_clone(last).expect(rt, "memory");
    let last = Arc::try_clone(last).expect(rt, "memory");
    assert!(rt; giver.push(rt, prev, last, 1, Kind::Last).is_ok());
}

/// Pushes two jobs, waits until both are done, and stops the workers.
fn walk<R: Abort + Wait, G: Gate>(
    rt: &R,
    giver: &mut Giver,
    halter: &mut Halter,
    wakers: &[Unparker],
    gate: &G,
    last: &Arc<Snapshot>,
)
    ensures queue { giver.new.queue ≡ giver.old.queue }
    ensures opened { giver.new.opened ≡ giver.old.opened }
{
    push(rt, giver, last);
    push(rt, giver, last);
    wake(wakers);
    gate.pass(Point::Ended, giver.pushed());
    halter.halt();
    wake(wakers);
}

/// Wakes all workers.
fn wake(wakers: &[Unparker]) {
    for waker in wakers {
        waker.unpark();
    }
}

/// Holds the first job until the second is done, and the walk until both are.
fn holds() -> [Hold; 3] {
    let hold = |at, ticket, until, other| Hold {
        at,
        ticket,
        until,
        other,
    };
    [
        hold(Point::Taken, 0, Point::Done, 1),
        hold(Point::Ended, 0, Point::Done, 0),
        hold(Point::Ended, 0, Point::Done, 1),
    ]
}

/// The next of these writers and flags, as a worker.
fn next_worker<R: Abort + Wait + Drop>(
    rt: &R,
    alloc: Global,
    shape: Shape,
    writers: &mut Vec<ShardWriter<R>>,
    flags: &mut Vec<Flag>,
) -> Worker<ShardWriter<R>, Flag>
    ensures { result.tally ≡ no_jobs }
{
    let writer = writers.pop().expect(rt, "a writer");
    let flag = flags.pop().expect(rt, "a flag");
    match Worker::new(alloc, shape, 1, 100, writer, flag, false) {
        Ok(worker) => worker,
        Err(_) => panic!(rt; "no memory"),
    }
}

/// Two workers, whose flags say nothing.
fn two_workers_of<R: Abort + Wait + Copy + Drop>(
    rt: &R,
    alloc: Global,
    shape: Shape,
) -> Vec<Worker<ShardWriter<R>, Flag>>
    ensures count { length result.items ≡ 2 }
    ensures new { All (λ w. w.tally ≡ no_jobs) result.items }
{
    let cache = Cache::open(alloc, *rt, 2, 16).expect(rt, "memory");
    let (mut writers, _readers) = cache.split();
    let (_halter, mut flags) = Halter::open(alloc, 2).expect(rt, "memory");
    let mut workers = Vec::new(alloc);
    let first = next_worker(rt, alloc, shape, &mut writers, &mut flags);
    workers.push(first).expect(rt, "memory");
    let second = next_worker(rt, alloc, shape, &mut writers, &mut flags);
    workers.push(second).expect(rt, "memory");
    workers
}

/// Runs a walk of two jobs beside a team.
fn serve<R: Abort + Threads + Wait + Sync + Drop + Send>(
    rt: &R,
    team: &mut Team<ShardWriter<R>, Flag>,
    giver: &mut Giver,
    halter: &mut Halter,
    wakers: &[Unparker],
    gate: &HoldGate,
    last: &Arc<Snapshot>,
)
    requires { team.old.queue ≡ Some giver.old.queue }
    ensures count { length team.new.posts ≡ length team.old.posts }
    ensures team { team.new.queue ≡ team.old.queue }
    ensures queue { giver.new.queue ≡ giver.old.queue }
    ensures opened { giver.new.opened ≡ giver.old.opened }
{
    team.beside(
        rt,
        gate,
        &mut || { walk(rt, giver, halter, wakers, gate, last) },
    );
}

/// Two workers beside a walk that pushes two jobs of one state, into a queue of its own: each runs one of them. It answers
/// how many entries were stored, and how many were known.
fn run_two<R: Abort + Threads + Wait + Sync + Copy + Drop + Send>(
    rt: &R,
    alloc: Global,
    team: &mut Team<ShardWriter<R>, Flag>,
    wakers: &[Unparker],
    last: &Arc<Snapshot>,
) -> (u64, u64)
    requires queue { team.old.queue ≡ None }
    requires two { length team.old.posts ≡ 2 }
    ensures queue { team.new.queue ≡ None }
    ensures two { length team.new.posts ≡ 2 }
{
    let (mut halter, flags) = Halter::open(alloc, 2).expect(rt, "memory");
    let (mut giver, takers) = Jobs::open(alloc, 4, 2).expect(rt, "memory");
    team.begin(&giver, takers, flags);
    let gate = HoldGate::new(alloc, &holds(), 100_000_000).expect(rt, "memory");
    serve(rt, team, &mut giver, &mut halter, wakers, &gate, last);
    let taken = team.take_in(rt, giver);
    assert!(rt; gate.all_held());
    assert_eq!(rt; (taken.tally.ran, taken.left), (2, 0));
    (taken.tally.stored, taken.tally.known)
}

// A team serves two queues, one after the other. In the second run its workers have what they stored in the first. Their
// memory is filled in 2 pieces, and in 65.
#[test]
fn two_queues(rt: HostRuntime) {
    let alloc = rt.alloc();
    for size in [0x1_0000, 0x40_0000] {
        let last = counting(&rt, alloc, size, 0x10008, 0);
        let workers = two_workers_of(&rt, alloc, last.shape());
        let (mut team, wakers) = Team::new(alloc, workers).expect(&rt, "memory");
        assert_eq!(rt; run_two(&rt, alloc, &mut team, &wakers, &last), (2, 0));
        assert_eq!(rt; run_two(&rt, alloc, &mut team, &wakers, &last), (0, 2));
        for i in 0..2 {
            assert_eq!(rt; team.worker(i).writer().stored(), 1);
        }
    }
}

// A worker of a large memory that is to stop before it is woken ends, and the job is left.
#[test]
fn stopped_before_it_is_woken(rt: HostRuntime) {
    let alloc = rt.alloc();
    let (mut giver, mut takers) = Jobs::open(alloc, 4, 1).expect(&rt, "memory");
    let mut taker = takers.pop().expect(&rt, "a taker");
    let parker = Parker::new(alloc).expect(&rt, "memory");
    let mut shard = Shard::new(alloc, 4).expect(&rt, "memory");
    let shape = Shape::new(0x10000, 0x400_0000).expect(&rt, "a good shape");
    match Worker::new(
        alloc,
        shape,
        1,
        100,
        ListWriter::new(&mut shard),
        flag(&rt, alloc, true),
        false,
    ) {
        Ok(mut worker) => {
            push(&rt, &mut giver, &counting(&rt, alloc, 65_536, 0x10008, 0));
            parker.unparker().unpark();
            work_loop(&rt, &mut worker, &mut taker, &Open, &parker);
            assert_eq!(rt; worker.tally().ran, 0);
        }
        Err(_) => panic!(rt; "no memory"),
    }
    assert!(rt; taker.pop(&rt).is_some());
}
