ghost use Rattle.std.specs.Prelude.{◌≡◌, ℕ, ◌+◌, ◌^◌, ◌<◌, ◌≤◌, [], Some, None, true, All, IfOk, length, replicate, set, slice_index_or};
ghost use Rattle.std.specs.Option.{is_some};
ghost use Rattle.asc_model.specs.Shape.{Shape};
ghost use Rattle.asc_guess.specs.Guess.{Task};
ghost use Rattle.asc_work.specs.declared.lane.Lane.{Lane};
ghost use Rattle.asc_work.specs.Lanes.{AreShared, HasRunAll, HasRunOnly, IsDone, IsLane, IsRound, ran_by};

use crate::lane::{Lane, Round};
use asc_guess::Kind;
use asc_model::{MOST_GUESSES, MOST_WORKERS};
use asc_outside::{Gate, Memory};
use asc_shape::{Shape, Snapshot};
use asc_traj::Made;
use std::alloc::Global;
use std::marker::Model;
use std::sync::Arc;
use std::thread::{Threads, for_each_mut};

/// They run the jobs of a visit beside one another. A lane that has a job runs in a thread of its own, where one can be made,
/// but for one, which the caller runs. A lane without a job starts none. A round's threads end with it. The results are those
/// of one lane that runs all jobs, but for want of memory, and are taken in any order.
///
/// Contracts see it as the `Lanes` of `specs/`.
#[derive(Drop)]
pub struct Lanes {
    shape: Shape,
    laps: u64,
    span: u64,
    // Job i of the last round stands in lane i modulo their number.
    lanes: Vec<Lane>,
    // How many jobs the last round had.
    jobs: usize,
}

impl Model for Lanes {
    ghost use Rattle.asc_work.specs.Lanes as model;
    ghost use Rattle.std.specs.Prelude.{◌≤◌, length};

    ghost Value = { model.Lanes };

    ghost view = { λ l. record {
      shape = l.shape;
      laps = l.laps;
      span = l.span;
      lanes = length l.lanes.items;
      results = model.dealt (model.lists_of l.lanes.items) l.jobs;
      ran = model.ran_by l.lanes.items;
    } };

    ghost invariant = { λ l. model.AreLanes l.shape l.lanes.items × (1 ≤ l.laps) × (1 ≤ l.span) };
}

impl Lanes {
    /// So many lanes, that have run no job. They trace a guess over at most `laps` laps and `span` steps. All memory of
    /// their tracers is taken here, and room for the results of a round.
    pub fn new(
        alloc: Global,
        shape: Shape,
        laps: u64,
        span: u64,
        lanes: usize,
    ) -> Result<Lanes, Memory>
        requires laps { 1 ≤ laps }
        requires span { 1 ≤ span }
        requires some { 1 ≤ lanes }
        requires most { lanes ≤ MOST_WORKERS }
        ensures { IfOk result (λ l. l ≡ record { shape = shape; laps = laps; span = span; lanes = lanes; results = []; ran = replicate lanes 0 }) }
    {
        Ok(Lanes {
            shape,
            laps,
            span,
            lanes: new_lanes(alloc, shape, lanes)?,
            jobs: 0,
        })
    }

    /// Runs the jobs of a visit, each a kind and how many visits it guesses ahead, from the state of that visit and of
    /// the one before. What became of the jobs of an earlier round is dropped. Once job i's guess was traced the gate is
    /// passed at `Traced`, with the ticket `first + i`. That holds up no job but the later ones of its lane.
    ///
    /// Of n lanes, lane k has a result of each of the jobs k, k + n, k + 2 n and so on, and of no other. So the result of
    /// job i is that of lane i modulo n alone.
    ///
    /// It can't be refused: where memory is wanting for a job, that job's result says so. It takes no memory but that of
    /// the entries, and of shares of the snapshots.
    pub fn run<R: Threads + Sync, G: Gate + Sync>(
        &mut self,
        rt: &R,
        prev: &Arc<Snapshot>,
        last: &Arc<Snapshot>,
        jobs: &[(Kind, u32)],
        first: u64,
        gate: &G,
    )
        requires prev { prev.now.value.shape ≡ self.old.shape }
        requires last { last.now.value.shape ≡ self.old.shape }
        requires jobs { length jobs.now ≤ MOST_GUESSES }
        requires first { first < 2 ^ 62 }
        ensures count { length self.new.results ≡ length jobs.now }
        ensures done { (i : ℕ) (d : Task) → i < length jobs.now
            → IsDone self.old.laps self.old.span prev.now.value last.now.value
            (slice_index_or jobs.now i d) (slice_index_or self.new.results i None) }
        ensures shares { AreShared self.new.ran self.old.lanes (length jobs.now) }
        ensures same { self.new ≡ record self.old { results = self.new.results; ran = self.new.ran } }
    {
        let round = Round {
            prev,
            last,
            jobs,
            first,
            laps: self.laps,
            span: self.span,
            lanes: self.lanes.len(),
        };
        run_all(rt, self.lanes.as_mut_slice(), &round, gate);
        self.jobs = jobs.len();
    }

    /// Whether what became of job i of the last round is there: there was such a job, and its result was not taken yet.
    pub fn has(&self, i: usize) -> bool
        ensures { result ≡ is_some (slice_index_or self.now.results i None) }
    {
        let lanes = self.lanes.len();
        i < self.jobs && self.lanes[i % lanes].has(i / lanes)
    }

    /// Takes what became of job i of the last round, whose result was not taken yet. The other results stay.
    pub fn take(&mut self, i: usize) -> Made
        requires { is_some (slice_index_or self.old.results i None) ≡ true }
        ensures result { slice_index_or self.old.results i None ≡ Some result }
        ensures others { self.new ≡ record self.old { results = set self.old.results i None } }
    {
        let lanes = self.lanes.len();
        self.lanes[i % lanes].take(i / lanes)
    }
}

// So many lanes, that have run no job.
fn new_lanes(alloc: Global, shape: Shape, lanes: usize) -> Result<Vec<Lane>, Memory>
    requires some { 1 ≤ lanes }
    requires most { lanes ≤ MOST_WORKERS }
    ensures count { IfOk result (λ made. length made.items ≡ lanes) }
    ensures each { IfOk result (λ made. All (IsLane shape lanes) made.items) }
    ensures empty { IfOk result (λ made. ran_by made.items ≡ replicate lanes 0) }
{
    let room = MOST_GUESSES.div_ceil(lanes);
    let mut made = Vec::with_capacity(alloc, lanes)?;
    for _ in 0..lanes {
        made.push(Lane::new(alloc, shape, room)?)?;
    }
    Ok(made)
}

// How many lanes have a job of a round, and one where it has none.
fn busy_lanes(round: &Round<'_>) -> usize
    requires { 1 ≤ round.now.lanes }
    ensures some { 1 ≤ result }
    ensures most { result ≤ round.now.lanes }
    ensures others { (k : ℕ) → result ≤ k → k < round.now.lanes → length round.now.jobs.now ≤ k }
{
    round.jobs.len().clamp(1, round.lanes)
}

// Runs the jobs of a round, those of one lane in the caller's thread, and those of each other that has one in a thread of its
// own, where one can be made.
fn run_all<R: Threads + Sync, G: Gate + Sync>(
    rt: &R,
    lanes: &mut [Lane],
    round: &Round<'_>,
    gate: &G,
)
    requires number { length lanes.old ≡ round.now.lanes }
    requires round { IsRound round.now.last.now.value.shape round.now }
    requires each { All (IsLane round.now.last.now.value.shape round.now.lanes) lanes.old }
    ensures each { All (IsLane round.now.last.now.value.shape round.now.lanes) lanes.new }
    ensures done { (k : ℕ) (d : Lane) → k < length lanes.old → HasRunAll round.now k (slice_index_or lanes.new k d) }
    ensures only { (k : ℕ) (d : Lane) → k < length lanes.old → HasRunOnly round.now k (slice_index_or lanes.new k d) }
    ensures count { length lanes.new ≡ length lanes.old }
{
    let busy = busy_lanes(round);
    let (working, resting) = lanes.split_at_mut(busy);
    run_from(rt, working, 0, busy, round, gate);
    run_from(rt, resting, busy, 1, round, gate);
}

// Runs the jobs of some lanes of a round, from the `start`th on, in so many threads, where these can be made.
fn run_from<R: Threads + Sync, G: Gate + Sync>(
    rt: &R,
    lanes: &mut [Lane],
    start: usize,
    threads: usize,
    round: &Round<'_>,
    gate: &G,
)
    requires threads { 1 ≤ threads }
    requires within { start + length lanes.old ≤ round.now.lanes }
    requires round { IsRound round.now.last.now.value.shape round.now }
    requires each { All (IsLane round.now.last.now.value.shape round.now.lanes) lanes.old }
    ensures each { All (IsLane round.now.last.now.value.shape round.now.lanes) lanes.new }
    ensures done { (k : ℕ) (d : Lane) → k < length lanes.old → HasRunAll round.now (start + k) (slice_index_or lanes.new k d) }
    ensures only { (k : ℕ) (d : Lane) → k < length lanes.old → HasRunOnly round.now (start + k) (slice_index_or lanes.new k d) }
    ensures count { length lanes.new ≡ length lanes.old }
{
    let run = |at: usize, lane: &mut Lane|
        requires { (start + at < MOST_WORKERS) × IsRound round.now.last.now.value.shape round.now
            × IsLane round.now.last.now.value.shape round.now.lanes lane.now }
        ensures { IsLane round.entry.now.last.now.value.shape round.entry.now.lanes lane.exit.now
            × HasRunAll round.entry.now (start + at) lane.exit.now × HasRunOnly round.entry.now (start + at) lane.exit.now }
    { lane.run(start + at, round, gate) };
    for_each_mut(rt, lanes, threads, &run);
}
