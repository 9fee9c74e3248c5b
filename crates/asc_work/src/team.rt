ghost use Rattle.std.specs.Prelude.{◌≡◌, ℕ, ◌+◌, ◌<◌, ◌≤◌, Some, None, All, IfOk, length, slice_index_or};
ghost use Rattle.atomic_table.specs.Seated.{TableId};
ghost use Rattle.asc_jobs.specs.Jobs.{new_taker};
ghost use Rattle.asc_model.specs.Tally.{job_counts, no_jobs};
ghost use Rattle.asc_work.specs.Posts.{HasServed, IsRehalted, IsTakenIn, all_tallies, halts_at, workers_at};
ghost use Rattle.asc_work.specs.declared.post.Post.{Post};

use crate::Worker;
use crate::post::{Post, TakenIn, man, new_posts, take_in};
use crate::scope::beside;
use asc_cache::Insert;
use asc_jobs::{Giver, Taker};
use asc_model::MOST_WORKERS;
use asc_outside::{Gate, Memory};
use asc_traj::Halt;
use crossbeam_utils::sync::Unparker;
use std::alloc::Global;
use std::marker::Model;
use std::sync::Wait;
use std::thread::Threads;

/// Workers, each at a post of its own: with what it parks on, and in a run with its taker of the run's queue.
///
/// A run is from `begin` to `take_in`, and a further one may follow. The workers live on, with the memory of their tracers
/// and what their writers have stored.
#[derive(Drop)]
pub struct Team<W: Insert + Drop, H: Halt + Drop> {
    posts: Vec<Post<W, H>>,
}

impl<W: Insert + Drop, H: Halt + Drop> Model for Team<W, H> {
    ghost use Rattle.asc_work.specs.Posts as model;

    ghost Value = { model.Team W H };

    ghost view = { λ t. record { queue = model.queue_of t.posts.items; posts = t.posts.items } };

    ghost invariant = { λ t. model.IsTeam t.posts.items };
}

impl<W: Insert + Drop, H: Halt + Drop> Team<W, H> {
    /// A team of workers that have no queue yet, and what wakes them.
    pub fn new(
        alloc: Global,
        workers: Vec<Worker<W, H>>,
    ) -> Result<(Team<W, H>, Vec<Unparker>), Memory>
        requires some { 0 < length workers.items }
        requires few { length workers.items ≤ MOST_WORKERS }
        requires workers { All (λ w. w.tally ≡ no_jobs) workers.items }
        ensures queue { IfOk result (λ r. r.0.queue ≡ None) }
        ensures posts { IfOk result (λ r. length r.0.posts ≡ length workers.items) }
        ensures wakers { IfOk result (λ r. length r.1.items ≡ length workers.items) }
        ensures workers { IfOk result (λ r. workers_at r.0.posts ≡ workers.items) }
    {
        let (posts, wakers) = new_posts(alloc, workers)?;
        Ok((Team { posts }, wakers))
    }

    /// Begins a run: the workers take jobs from this giver's queue from now on, and ask these halts. There are as many
    /// takers and halts as workers, and the order of both is that of the workers that the team was made of. The halts
    /// before are dropped. It takes no memory.
    ///
    /// A wake that a worker kept from the run before ends its first wait in this one.
    pub fn begin(&mut self, _giver: &Giver, takers: Vec<Taker>, halts: Vec<H>)
        requires queue { self.old.queue ≡ None }
        requires count { length takers.items ≡ length self.old.posts }
        requires halts { length halts.items ≡ length self.old.posts }
        requires takers { All (λ t. t ≡ new_taker _giver.now.queue) takers.items }
        ensures queue { self.new.queue ≡ Some _giver.now.queue }
        ensures count { length self.new.posts ≡ length self.old.posts }
        ensures halts { halts_at self.new.posts ≡ halts.items }
        ensures workers { (i : ℕ) (d : Post W H) → i < length self.old.posts
            → IsRehalted (slice_index_or self.old.posts i d) (slice_index_or self.new.posts i d) }
    {
        man(self.posts.as_mut_slice(), takers, halts)
    }

    /// How many workers there are.
    pub fn len(&self) -> usize
        ensures { result ≡ length self.now.posts }
    {
        self.posts.len()
    }

    /// Runs the workers beside a walk, and answers what the walk answers. The walk has to end with the halt of all
    /// workers, and to wake them then: this returns only once each has stopped.
    ///
    /// Each worker runs in a thread of its own where one can be made. Where none can, the workers run once the walk has
    /// ended, and then stop at once.
    pub fn beside<R: Threads + Wait + Sync, G: Gate + Sync, A, F: FnMut() -> A>(
        &mut self,
        rt: &R,
        gate: &G,
        walk: &mut F,
    ) -> A
    where
        W: Send,
        H: Send,
        requires queue { (queue : TableId) × (self.old.queue ≡ Some queue) }
        requires walk { F.pre walk.old }
        ensures served { (i : ℕ) (d : Post W H) → i < length self.old.posts
            → HasServed H.count W.identity (slice_index_or self.old.posts i d) (slice_index_or self.new.posts i d) }
        ensures count { length self.new.posts ≡ length self.old.posts }
        ensures queue { self.new.queue ≡ self.old.queue }
        ensures walk { F.step walk.old result walk.new }
    {
        beside(rt, self.posts.as_mut_slice(), gate, walk)
    }

    /// Ends a run: takes the workers in, once all jobs were pushed and the workers have stopped. It pops the jobs that
    /// are left. The workers have no queue then, and their tallies are 0. It takes no memory.
    pub fn take_in<R: Wait>(&mut self, rt: &R, giver: Giver) -> TakenIn
        requires queue { self.old.queue ≡ Some giver.queue }
        requires parts { giver.opened ≡ length self.old.posts + 1 }
        ensures jobs { length giver.pushed ≡ result.tally.ran + result.left }
        ensures tally { job_counts result.tally ≡ all_tallies self.old.posts }
        ensures queue { self.new.queue ≡ None }
        ensures count { length self.new.posts ≡ length self.old.posts }
        ensures workers { (i : ℕ) (d : Post W H) → i < length self.old.posts
            → IsTakenIn (slice_index_or self.old.posts i d) (slice_index_or self.new.posts i d) }
    {
        take_in(rt, giver, self.posts.as_mut_slice())
    }

    /// The worker at the post of this number.
    pub fn worker(&self, i: usize) -> &Worker<W, H>
        requires { i < length self.now.posts }
        ensures { (d : Post W H) → result.now ≡ (slice_index_or self.now.posts i d).worker }
    {
        &self.posts[i].worker
    }
}
