ghost use Rattle.std.specs.Prelude.{◌≡◌, ◌+◌, ◌<◌, ◌≤◌, ◌^◌, length, IfOk, IfSome, IfNone, OnErr};
ghost use Rattle.asc_jobs.specs.Hands.{join_hands};
ghost use Rattle.asc_jobs.specs.Jobs.{AreOpened, HasAllParts, after_push, after_pop, hand_of};

use crate::Job;
use crate::hand::Hand;
use asc_guess::Kind;
use asc_model::{MOST_WAITING, MOST_WORKERS};
use asc_outside::Memory;
use asc_shape::Snapshot;
use crossbeam_queue::protocol::{Join, Lesson, Outcome, Protocol, Split};
use crossbeam_queue::{Pass, RuledArrayQueue};
use std::alloc::Global;
use std::marker::Model;
use std::sync::{Arc, Wait};

// The steps at the queue are of six kinds. Each keeps the rule, by a lemma of its own in proofs/Moves.antt:
// - a push lands behind the other jobs, and the giver knows of one job more (`pushes`);
// - a push finds the queue full, and nothing changes (`holds_no_more` says what is learned);
// - a pop takes the job at the front, and its taker's list gains it (`pops`);
// - a pop finds the queue empty, and nothing changes (`has_all` says what is learned);
// - a taker's pass is split off the giver's, before any push (`forks`);
// - a pass takes in another, which then has no part (`merges`).

// The rule of the queue: what was pushed is what was taken, each job by one pass, and then what the queue holds.
struct EachOnce;

impl Protocol<Job, Hand> for EachOnce {
    ghost use Rattle.asc_jobs.specs.JobRule.{JobRule};
    ghost use Rattle.asc_jobs.specs.Hands.{first_hand};

    ghost holds = { JobRule };

    ghost first = { first_hand };
}

struct Splits;

impl Split<Hand> for Splits {
    ghost use Rattle.asc_jobs.specs.Hands.{one_part_more, new_hand};

    ghost left = { one_part_more };

    ghost right = { λ v. new_hand };
}

struct Joins;

impl Join<Hand> for Joins {
    ghost use Rattle.asc_jobs.specs.Hands.{join_hands, spent_hand};

    ghost both = { join_hands };

    ghost spent = { spent_hand };
}

struct Pushed;

impl Outcome<Job, Hand> for Pushed {
    ghost use Rattle.std.specs.Prelude.{◌≡◌};
    ghost use Rattle.asc_jobs.specs.Hands.{pushed_by};

    ghost then = { λ v x w. w ≡ pushed_by v x };
}

impl Lesson<Job, Hand> for Pushed {
    ghost use Rattle.std.specs.Prelude.{◌≤◌, length};

    ghost fact = { λ v items. length items ≤ length v.pushed };
}

struct Popped;

impl Outcome<Job, Hand> for Popped {
    ghost use Rattle.std.specs.Prelude.{◌≡◌, ◌^◌, ◌<◌};
    ghost use Rattle.asc_jobs.specs.Hands.{popped_by};

    ghost then = { λ v x w. (w ≡ popped_by v x) × (x.ticket < 2 ^ 61) };
}

impl Lesson<Job, Hand> for Popped {
    ghost use Rattle.std.specs.Prelude.{◌≡◌, ◌++◌};
    ghost use Rattle.asc_jobs.specs.Jobs.{HasAllParts};

    ghost fact = { λ v items. HasAllParts v → v.popped ++ items ≡ v.pushed };
}

type JobQueue = RuledArrayQueue<Job, Hand, EachOnce>;

/// A bounded queue of jobs. Its giver and its takers own it together.
#[derive(Clone, Copy, Debug)]
pub struct Jobs;

/// At a moment of the call the queue held as many jobs as it may.
#[derive(Clone, Copy, Debug, PartialEq, Eq)]
pub struct Full;

/// The only one that pushes jobs into its queue.
#[derive(Drop)]
pub struct Giver {
    queue: Arc<JobQueue, Global>,
    pass: Pass<Job, Hand>,
    next: u64,
}

impl Model for Giver {
    ghost use Rattle.std.specs.Prelude.{◌≡◌, length};
    ghost use Rattle.std.specs.Arc.{arc_value};
    ghost use Rattle.crossbeam_queue.specs.Passes as passes;
    ghost use Rattle.asc_jobs.specs.Jobs as model;

    ghost Value = { model.Giver };

    ghost view = { λ g. record {
      queue = g.pass.table_id;
      capacity = passes.ruled_capacity (arc_value g.queue);
      opened = (passes.view g.pass).opened;
      pushed = (passes.view g.pass).pushed;
    } };

    ghost invariant = { λ g. passes.IsPassOf (arc_value g.queue) g.pass × model.IsGivers (passes.view g.pass)
        × (g.next ≡ length (passes.view g.pass).pushed) };
}

/// One of those that pop jobs from their queue.
#[derive(Drop)]
pub struct Taker {
    queue: Arc<JobQueue, Global>,
    pass: Pass<Job, Hand>,
}

impl Model for Taker {
    ghost use Rattle.std.specs.Prelude.{◌<◌};
    ghost use Rattle.std.specs.Arc.{arc_value};
    ghost use Rattle.crossbeam_queue.specs.Passes as passes;
    ghost use Rattle.asc_jobs.specs.Jobs as model;

    ghost Value = { model.Taker };

    ghost view = { λ t. record { queue = t.pass.table_id; hand = passes.view t.pass } };

    ghost invariant = { λ t. passes.IsPassOf (arc_value t.queue) t.pass × (0 < (passes.view t.pass).parts) };
}

impl Jobs {
    /// The giver and the takers of an empty queue, which holds at most `capacity` jobs.
    pub fn open(
        alloc: Global,
        capacity: usize,
        takers: usize,
    ) -> Result<(Giver, Vec<Taker>), Memory>
        requires capacity { (0 < capacity) × (capacity ≤ MOST_WAITING) }
        requires takers { (0 < takers) × (takers ≤ MOST_WORKERS) }
        ensures { IfOk result (λ r. AreOpened capacity takers r.0 r.1.items) }
    {
        let (queue, pass) = JobQueue::ruled(alloc, capacity)?;
        let queue = Arc::new(alloc, queue)?;
        let mut giver = Giver {
            queue,
            pass,
            next: 0,
        };
        let mut made = Vec::with_capacity(alloc, takers)?;
        for _ in 0..takers {
            made.push(giver.taker()?)?;
        }
        Ok((giver, made))
    }
}

impl Giver {
    ghost use Rattle.std.specs.Prelude.{[]};
    ghost use Rattle.asc_jobs.specs.Jobs.{one_taker_more, new_taker};

    /// How many jobs it has pushed.
    pub fn pushed(&self) -> u64
        ensures { result ≡ length self.now.pushed }
    {
        self.next
    }

    /// How many jobs the queue may hold.
    pub fn capacity(&self) -> usize
        ensures { result ≡ self.now.capacity }
    {
        self.queue.capacity()
    }

    /// Pushes a job, and answers its ticket: 0, 1, 2 and so on. Where the queue is full, nothing is pushed and no
    /// ticket is used. A queue takes at most 2^61 jobs. Past 2^62 the queue below would wait for ever.
    pub fn push<R: Wait>(
        &mut self,
        rt: &R,
        prev: Arc<Snapshot, Global>,
        last: Arc<Snapshot, Global>,
        ahead: u32,
        kind: Kind,
    ) -> Result<u64, Full>
        requires { length self.old.pushed < 2 ^ 61 }
        ensures ticket { IfOk result (λ n. n ≡ length self.old.pushed) }
        ensures pushed { IfOk result (λ n. self.new ≡ after_push self.old (record {
          ticket = n;
          prev = prev;
          last = last;
          ahead = ahead;
          kind = kind;
        })) }

        // It comes only once as many jobs were pushed as the queue holds.
        ensures full { OnErr result (self.old.capacity ≤ length self.old.pushed) }
        ensures same { OnErr result (self.new ≡ self.old) }
    {
        let ticket = self.next;
        let job = Job {
            ticket,
            prev,
            last,
            ahead,
            kind,
        };
        match self.queue.push_as::<Pushed, R>(rt, &mut self.pass, job) {
            Ok(()) => {
                self.next = ticket + 1;
                Ok(ticket)
            }
            Err(_) => Err(Full),
        }
    }

    // One taker more.
    fn taker(&mut self) -> Result<Taker, Memory>
        requires { self.old.pushed ≡ [] }
        ensures giver { IfOk result (λ t. self.new ≡ one_taker_more self.old) }
        ensures taker { IfOk result (λ t. t ≡ new_taker self.old.queue) }
    {
        let queue = Arc::try_clone(&self.queue)?;
        let pass = self.queue.another::<Splits>(&mut self.pass);
        Ok(Taker { queue, pass })
    }
}

impl Taker {
    /// Pops the job at the front; nothing where the queue is empty. Its ticket is below 2^61, since a queue takes no more
    /// jobs than that.
    pub fn pop<R: Wait>(&mut self, rt: &R) -> Option<Job>
        ensures some { IfSome result (λ job. self.new ≡ after_pop self.old job) }
        ensures ticket { IfSome result (λ job. job.ticket < 2 ^ 61) }
        ensures none { IfNone result (self.new ≡ self.old) }

        // Where all parts were joined, nothing comes only once every job was popped.
        ensures all { IfNone result (HasAllParts self.old.hand → self.old.hand.popped ≡ self.old.hand.pushed) }
    {
        self.queue.pop_as::<Popped, R>(rt, &mut self.pass)
    }

    /// Takes in another taker of its queue, once that one's thread has ended.
    pub fn join(&mut self, other: Taker)
        requires { other.queue ≡ self.old.queue }
        ensures { self.new ≡ record self.old { hand = join_hands self.old.hand other.hand } }
    {
        let Taker {
            queue: _queue,
            pass,
        } = other;
        self.queue.absorb::<Joins>(&mut self.pass, pass);
    }

    /// Takes in the giver of its queue, once all jobs were pushed.
    pub fn join_giver(&mut self, giver: Giver)
        requires { giver.queue ≡ self.old.queue }
        ensures { self.new ≡ record self.old { hand = join_hands self.old.hand (hand_of giver) } }
    {
        let Giver {
            queue: _queue,
            pass,
            next: _,
        } = giver;
        self.queue.absorb::<Joins>(&mut self.pass, pass);
    }
}
