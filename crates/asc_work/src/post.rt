ghost use Rattle.std.specs.Prelude.{◌≡◌, ℕ, ◌+◌, ◌<◌, ◌≤◌, Some, true, length, map, slice_index_or, All, IfOk};
ghost use Rattle.std.specs.Option.{is_some};
ghost use Rattle.asc_jobs.specs.Jobs.{HasAllParts, new_taker};
ghost use Rattle.asc_model.specs.Tally.{job_counts, no_jobs};
ghost use Rattle.atomic_table.specs.Seated.{TableId};
ghost use Rattle.asc_work.specs.Posts.{HasServed, IsIdle, IsManned, IsReady, IsRehalted, all_tallies, halts_at, manned_with, relieved, workers_at};
ghost use Rattle.asc_work.specs.declared.post.Post.{Post};

use crate::{Worker, work_loop};
use asc_cache::Insert;
use asc_jobs::{Giver, Taker};
use asc_model::{MOST_WORKERS, Tally};
use asc_outside::{Gate, Memory};
use asc_traj::Halt;
use crossbeam_utils::sync::{Parker, Unparker};
use std::alloc::Global;
use std::sync::Wait;

/// A worker, with where it parks, and in a run with what it takes jobs from.
#[derive(Drop)]
pub(crate) struct Post<W: Insert + Drop, H: Halt + Drop> {
    pub worker: Worker<W, H>,
    pub taker: Option<Taker>,
    pub parker: Parker,
}

/// How many jobs of a queue were run and left, once its workers are taken in.
#[derive(Clone, Copy, Debug, PartialEq, Eq)]
pub struct TakenIn {
    /// What became of the jobs that were run.
    pub tally: Tally,
    /// How many jobs were left in the queue.
    pub left: u64,
}

impl<W: Insert + Drop, H: Halt + Drop> Post<W, H> {
    /// Takes jobs and runs them, until its halt says to stop.
    pub(crate) fn work<R: Wait, G: Gate>(&mut self, rt: &R, gate: &G)
        requires { IsReady self.old }
        ensures { HasServed H.count W.identity self.old self.new }
    {
        let Some(taker) = &mut self.taker else {
            unreachable!()
        };
        work_loop(rt, &mut self.worker, taker, gate, &self.parker);
    }

    // Gives it a taker, and its worker a halt.
    fn man(&mut self, taker: Taker, halt: H)
        ensures { self.new ≡ manned_with taker halt self.old }
    {
        self.taker = Some(taker);
        let _before = self.worker.rehalt(halt);
    }

    // Takes back its taker, and its worker's tally.
    fn relieve(&mut self) -> (Taker, Tally)
        requires { is_some self.old.taker ≡ true }
        ensures taker { self.old.taker ≡ Some result.0 }
        ensures tally { job_counts result.1 ≡ self.old.worker.tally }
        ensures post { self.new ≡ relieved self.old }
    {
        let tally = self.worker.take_tally();
        match self.taker.take() {
            Some(taker) => (taker, tally),
            None => unreachable!(),
        }
    }
}

/// Posts of workers that have no taker yet, and what wakes them. The last worker is at the first post.
pub(crate) fn new_posts<W: Insert + Drop, H: Halt + Drop>(
    alloc: Global,
    mut workers: Vec<Worker<W, H>>,
) -> Result<(Vec<Post<W, H>>, Vec<Unparker>), Memory>
    requires { All (λ w. w.tally ≡ no_jobs) workers.items }
    ensures posts { IfOk result (λ r. length r.0.items ≡ length workers.items) }
    ensures idle { IfOk result (λ r. All (λ p. IsIdle p) r.0.items) }
    ensures wakers { IfOk result (λ r. length r.1.items ≡ length workers.items) }
    ensures workers { IfOk result (λ r. workers_at r.0.items ≡ workers.items) }
{
    let mut posts = Vec::with_capacity(alloc, workers.len())?;
    let mut wakers = Vec::with_capacity(alloc, workers.len())?;
    while let Some(worker) = workers.pop() {
        let parker = Parker::new(alloc)?;
        wakers.push(parker.unparker().clone()?)?;
        posts.push(Post {
            worker,
            taker: None,
            parker,
        })?;
    }
    Ok((posts, wakers))
}

/// Gives each post a taker, and its worker a halt. The last of each go to the first post.
pub(crate) fn man<W: Insert + Drop, H: Halt + Drop>(
    posts: &mut [Post<W, H>],
    mut takers: Vec<Taker>,
    mut halts: Vec<H>,
)
    requires takers { length takers.items ≡ length posts.old }
    requires halts { length halts.items ≡ length posts.old }
    ensures halts { halts_at posts.new ≡ halts.items }
    ensures rehalted { (i : ℕ) (d : Post W H) → i < length posts.old
        → IsRehalted (slice_index_or posts.old i d) (slice_index_or posts.new i d) }
    ensures manned { (queue : TableId) → All (λ t. t ≡ new_taker queue) takers.items
        → All (λ p. IsIdle p) posts.old → All (IsManned queue) posts.new }
    ensures count { length posts.new ≡ length posts.old }
{
    for i in 0..posts.len() {
        let Some(taker) = takers.pop() else {
            unreachable!()
        };
        let Some(halt) = halts.pop() else {
            unreachable!()
        };
        posts[i].man(taker, halt);
    }
}

/// Takes workers in, once all jobs were pushed and the workers have ended. It pops the jobs that are left.
pub(crate) fn take_in<R: Wait, W: Insert + Drop, H: Halt + Drop>(
    rt: &R,
    giver: Giver,
    posts: &mut [Post<W, H>],
) -> TakenIn
    requires some { 0 < length posts.old }
    requires few { length posts.old ≤ MOST_WORKERS }
    requires manned { All (IsManned giver.queue) posts.old }
    requires parts { giver.opened ≡ length posts.old + 1 }
    ensures jobs { length giver.pushed ≡ result.tally.ran + result.left }
    ensures tally { job_counts result.tally ≡ all_tallies posts.old }
    ensures posts { posts.new ≡ map (λ p. relieved p) posts.old }
{
    let (mut all, mut tally) = posts[0].relieve();
    for i in 1..posts.len() {
        let (taker, ran) = posts[i].relieve();
        all.join(taker);
        tally.add(&ran);
    }
    all.join_giver(giver);
    let left = pop_left(rt, &mut all);
    TakenIn { tally, left }
}

// Pops the jobs that are left, once all parts were joined, and answers how many there were.
fn pop_left<R: Wait>(rt: &R, all: &mut Taker) -> u64
    requires { HasAllParts all.old.hand }
    ensures { length all.old.hand.pushed ≡ length all.old.hand.popped + result }
{
    for left in 0..u64::MAX {
        if all.pop(rt).is_none() {
            return left;
        }
    }
    for _ in rt.forever() {}
    unreachable!()
}
