ghost use Rattle.std.specs.Prelude.{◌≡◌, ◌<◌, ◌≤◌, ◌^◌, true, false};
ghost use Rattle.asc_jobs.specs.declared.job.Job.{Job};
ghost use Rattle.asc_jobs.specs.Jobs.{after_pop};
ghost use Rattle.asc_work.specs.Posts.{HasRisen, HasWorked};
ghost use Rattle.asc_work.specs.Worker.{HasRun};

use crate::Worker;
use asc_cache::Insert;
use asc_jobs::Taker;
use asc_outside::{Gate, Point};
use asc_traj::Halt;
use crossbeam_utils::sync::Parker;
use std::sync::Wait;

// A worker takes no further job after so many, so that the jobs of 64 workers can be counted. No run has so many.
const MOST_JOBS: u64 = 1 << 57;

/// Takes jobs and runs them, and parks where there is none, until the worker's halt says to stop. The gate is passed at
/// `Taken` before a job and at `Done` after it.
///
/// It parks first of all, until it is woken once. Then it fills the memory of the worker's tracer in pieces, before each
/// of which it asks the halt. So a worker that is never woken for a job fills nothing, and one that is to stop while it
/// fills does so before the next piece.
///
/// After each wake it asks the halt, and takes jobs until there is none. A wake is kept until a worker parks, which then
/// goes on at once. So it does not park for ever where whoever tells the halt to stop wakes it afterwards, and no job
/// waits for ever after whose push a worker is woken.
pub fn work_loop<R: Wait, W: Insert + Drop, H: Halt + Drop, G: Gate>(
    rt: &R,
    worker: &mut Worker<W, H>,
    taker: &mut Taker,
    gate: &G,
    parker: &Parker,
)
    requires { worker.old.tally.ran ≤ 2 ^ 57 }
    ensures halted { HasRisen (H.count worker.old.halt) (H.count worker.new.halt) }
    ensures worked { HasWorked W.identity worker.old taker.old worker.new taker.new }
{
    parker.park(rt);
    for _ in rt.forever() {
        if worker.is_asked_to_stop() {
            return;
        }
        if !worker.fill_some() {
            continue;
        }
        if worker.tally().ran < MOST_JOBS && run_next(rt, worker, taker, gate) {
            continue;
        }
        parker.park(rt);
    }
    unreachable!()
}

// Takes a job and runs that very job. It answers whether there was one.
fn run_next<R: Wait, W: Insert + Drop, H: Halt + Drop, G: Gate>(
    rt: &R,
    worker: &mut Worker<W, H>,
    taker: &mut Taker,
    gate: &G,
) -> bool
    requires { worker.old.tally.ran < 2 ^ 57 }
    ensures count { H.count worker.old.halt ≤ H.count worker.new.halt }
    ensures worked { HasWorked W.identity worker.old taker.old worker.new taker.new }
    ensures ran { result ≡ true → (job : Job) × (taker.new ≡ after_pop taker.old job)
        × HasRun H.count W.content worker.old job worker.new }
    ensures none { result ≡ false → (worker.new ≡ worker.old) × (taker.new ≡ taker.old) }
{
    match taker.pop(rt) {
        Some(job) => {
            let ticket = job.ticket;
            gate.pass(Point::Taken, ticket);
            worker.run_job(job, gate);
            gate.pass(Point::Done, ticket);
            true
        }
        None => false,
    }
}
