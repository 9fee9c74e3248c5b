ghost use Rattle.std.specs.Prelude.{◌≡◌};

use asc_guess::Kind;
use asc_jobs::{Full, Giver, Jobs, Taker};
use asc_shape::{Shape, Snapshot, State};
use std::alloc::{AllocError, Global};
use std::process::Abort;
use std::sync::{Arc, Wait};
use std::test::Fail;
use std::thread::map_vec;

/// A snapshot of a state that is all zeros.
fn snapshot<R: Abort>(rt: &R, alloc: Global) -> Arc<Snapshot> {
    let shape = Shape::new(65_536, 65_536).expect(rt, "a good shape");
    let state = State::new(alloc, shape).expect(rt, "memory");
    Snapshot::of(alloc, &state).expect(rt, "memory")
}

/// Pushes a job, and answers its ticket.
fn push<R: Abort + Wait>(rt: &R, giver: &mut Giver, pair: &Arc<Snapshot>) -> Result<u64, Full>
    ensures { giver.new.queue ≡ giver.old.queue }
{
    assert!(rt; giver.pushed() < 1 << 60);
    let prev = Arc::try_clone(pair).expect(rt, "memory");
    let last = Arc::try_clone(pair).expect(rt, "memory");
    giver.push(rt, prev, last, 1, Kind::Last)
}

/// The ticket of the job at the front.
fn pop<R: Wait>(rt: &R, taker: &mut Taker) -> Option<u64>
    ensures { taker.new.queue ≡ taker.old.queue }
{
    match taker.pop(rt) {
        Some(job) => {
            is_shared(&job);
            Some(job.ticket)
        }
        None => None,
    }
}

/// The tickets of the jobs at the front, until the queue is empty.
fn tickets<R: Wait>(rt: &R, alloc: Global, mut taker: Taker) -> Result<Vec<u64>, AllocError> {
    let mut tickets = Vec::new(alloc);
    for _ in 0..1000 {
        match pop(rt, &mut taker) {
            Some(ticket) => tickets.push(ticket)?,
            None => return Ok(tickets),
        }
    }
    Ok(tickets)
}

/// It does nothing. Its call shows that threads may share values of a type, and hand them on.
fn is_shared<T: Send + Sync>(_value: &T) {}

#[test]
fn shared(rt: HostRuntime) -> Result<(), Fail> {
    let (giver, mut takers) = Jobs::open(rt.alloc(), 1, 1)?;
    is_shared(&giver);
    is_shared(&takers.pop().expect(&rt, "a taker"));
    Ok(())
}

#[test]
fn two_jobs(rt: HostRuntime) -> Result<(), Fail> {
    let pair = snapshot(&rt, rt.alloc());
    let (mut giver, mut takers) = Jobs::open(rt.alloc(), 2, 2)?;
    let mut other = takers.pop().expect(&rt, "two takers");
    let mut taker = takers.pop().expect(&rt, "two takers");
    assert_eq!(rt; giver.capacity(), 2);
    assert_eq!(rt; push(&rt, &mut giver, &pair), Ok(0));
    assert_eq!(rt; push(&rt, &mut giver, &pair), Ok(1));
    assert_eq!(rt; push(&rt, &mut giver, &pair), Err(Full));
    assert_eq!(rt; pop(&rt, &mut taker), Some(0));
    assert_eq!(rt; pop(&rt, &mut taker), Some(1));
    assert_eq!(rt; pop(&rt, &mut taker), None);
    assert_eq!(rt; push(&rt, &mut giver, &pair), Ok(2));
    assert_eq!(rt; pop(&rt, &mut other), Some(2));
    taker.join(other);
    taker.join_giver(giver);
    assert_eq!(rt; pop(&rt, &mut taker), None);
    Ok(())
}

#[test]
fn four_threads(rt: HostRuntime) -> Result<(), Fail> {
    let alloc = rt.alloc();
    let pair = snapshot(&rt, alloc);
    let (mut giver, takers) = Jobs::open(alloc, 1000, 4)?;
    for ticket in 0..1000 {
        assert_eq!(rt; push(&rt, &mut giver, &pair), Ok(ticket));
    }
    let mut all = Vec::with_capacity(alloc, 1000)?;
    for popped in map_vec(&rt, takers, &|taker| tickets(&rt, alloc, taker))? {
        all.extend_from_slice(popped?.as_slice())?;
    }
    all.sort_unstable();
    assert_eq!(rt; all.len(), 1000);
    assert!(rt;
        all.iter()
            .zip(0..1000)
            .all(|(&ticket, number)| ticket == number)
    );
    Ok(())
}
