ghost use Rattle.std.specs.Prelude.{◌≡◌, ◌+◌, ◌<◌, ◌≤◌, List, length, All, IfOk, IsNone, map};
ghost use Rattle.std.specs.Arc.{arc_value};
ghost use Rattle.asc_calls.specs.World.{outside_of};
ghost use Rattle.asc_cache.specs.Cache.{AreLater, IsOwnReader, ShardReader};
ghost use Rattle.asc_model.specs.Tally.{no_jobs};
ghost use Rattle.asc_live.specs.Crew.{AreOfSameShards, HasBoundsOf, HasLearnt, HasMet, IsAskedFor, IsForRun, IsTeamOf, IsWriterOf, WentBeside};

use crate::crew::{Crew, Worked, go_lent};
use crate::shards::open_shards;
use asc_cache::{ShardReaders, ShardWriter};
use asc_calls::Devices;
use asc_find::Guessing;
use asc_jobs::{Giver, Jobs, Taker};
use asc_model::{MOST_AHEAD, MOST_WAITING, MOST_WORKERS};
use asc_outside::{Gate, Memory, Sink, Source, Steps};
use asc_run::{LastVisits, Walk};
use asc_shape::Shape;
use asc_traj::Entry;
use asc_work::{Flag, Halter, Team, Worker};
use crossbeam_utils::sync::Unparker;
use std::alloc::Global;
use std::marker::{Brand, Model};
use std::sync::ledger::Ledger;
use std::sync::{Arc, Wait};
use std::thread::Threads;

/// What one run of a crew has for itself: what is kept of its visits, its queue, and what stops its workers.
#[derive(Drop)]
pub(crate) struct RunParts {
    pub visits: LastVisits,
    pub halter: Halter,
    pub flags: Vec<Flag>,
    pub giver: Giver,
    pub takers: Vec<Taker>,
}

impl RunParts {
    // Opens what one run needs.
    fn open(alloc: Global, guessing: Guessing, crew: Crew) -> Result<RunParts, Memory>
        requires workers { (1 ≤ crew.workers) × (crew.workers ≤ MOST_WORKERS) }
        requires queue { (1 ≤ crew.queue) × (crew.queue ≤ MOST_WAITING) }
        requires ahead { guessing.ahead ≤ MOST_AHEAD }
        ensures { IfOk result (λ parts. IsForRun guessing crew parts) }
    {
        let (halter, flags) = Halter::open(alloc, crew.workers)?;
        let (giver, takers) = Jobs::open(alloc, crew.queue, crew.workers)?;
        let visits = LastVisits::new(alloc, guessing)?;
        Ok(RunParts {
            visits,
            halter,
            flags,
            giver,
            takers,
        })
    }
}

/// A crew that was opened for so many runs, one after the other, over one cache.
///
/// It owns all memory that its runs need: the shards, the workers with their tracers' memory, what they park on, and what
/// each run has for itself. What a run has stored is known to the later ones from their first look-up on.
#[derive(Drop)]
pub struct OpenCrew<R: Wait + Drop> {
    shape: Shape,
    guessing: Guessing,
    crew: Crew,
    // Whether it may know entries: some were given, or a run went.
    knows: bool,
    team: Team<ShardWriter<R>, Flag>,
    // They are there but during a run.
    readers: Option<ShardReaders<R>>,
    // What wakes the workers.
    wakers: Vec<Unparker>,
    // The parts of the runs that are still to come.
    parts: Vec<RunParts>,
}

impl<R: Wait + Drop> Model for OpenCrew<R> {
    ghost use Rattle.std.specs.Prelude.{length};
    ghost use Rattle.asc_live.specs.Crew as model;

    ghost Value = { model.OpenCrew };

    ghost view = { λ c. record {
      shape = c.shape;
      guessing = c.guessing;
      crew = c.crew;
      runs = length c.parts.items;
      readers = model.readers_in c.readers;
      writers = model.writers_of c.team.posts;
    } };

    ghost invariant = { λ c.
        model.IsOpenCrew c.shape c.guessing c.crew c.readers c.team (length c.wakers.items) c.parts.items };
}

impl<R: Wait + Drop> OpenCrew<R> {
    /// Opens all that so many runs need. The crew knows these entries: they lie in the shard of one worker, whose later
    /// entries may drive out the oldest of them.
    pub fn open(
        alloc: Global,
        rt: R,
        shape: Shape,
        guessing: Guessing,
        crew: Crew,
        first: &[Arc<Entry>],
        runs: usize,
    ) -> Result<OpenCrew<R>, Memory>
    where
        R: Copy,
        requires workers { (1 ≤ crew.workers) × (crew.workers ≤ MOST_WORKERS) }
        requires queue { (1 ≤ crew.queue) × (crew.queue ≤ MOST_WAITING) }
        requires ahead { (1 ≤ guessing.ahead) × (guessing.ahead ≤ MOST_AHEAD) }
        requires laps { 1 ≤ guessing.laps }
        requires span { 1 ≤ guessing.span }
        requires runs { (1 ≤ runs) × (runs ≤ 64) }
        ensures asked { IfOk result (λ opened. IsAskedFor shape guessing crew runs opened) }
        ensures learnt { IfOk result (λ opened. HasLearnt (map arc_value first.now) opened.readers) }
    {
        let (writers, readers) = open_shards(alloc, rt, crew.workers, first)?;
        let (team, wakers) = team_of(alloc, shape, guessing, writers)?;
        let parts = parts_of(alloc, guessing, crew, runs)?;
        Ok(OpenCrew {
            shape,
            guessing,
            crew,
            knows: 0 < first.len(),
            team,
            readers: Some(readers),
            wakers,
            parts,
        })
    }

    /// Runs a walk to its end beside the workers, and takes these in. The gate is passed at `Ended` once the walk has
    /// ended, before the workers are stopped; its ticket is how many jobs were pushed.
    ///
    /// Then each reader learns all that its shard's writer has stored: this waits for no worker. The memory of one run is
    /// used up. None is taken, but for states that are kept, and entries: where it is wanting for these, a guess is given
    /// up, or a join is left out.
    ///
    /// A worker fills the memory of its tracer in its own thread, once it is woken for a job of its first run. It does so
    /// in pieces, between which it may be stopped. So the walk waits for none of it.
    pub fn go<G: Gate + Sync, I: Source, O: Sink, E: Sink, L: Ledger>(
        &mut self,
        rt: &R,
        alloc: Global,
        walk: &mut Walk,
        gate: &G,
        devices: &mut Devices<I, O, E>,
        steps: &mut Steps<L>,
    ) -> Worked
    where
        R: Threads + Sync + Copy + Send,
        requires new { IsNone walk.old.ended }
        requires runs { 1 ≤ self.old.runs }
        ensures went { WentBeside self.old.guessing self.old.crew walk.old walk.new (outside_of devices.old steps.old)
            (outside_of devices.new steps.new) result }
        ensures runs { self.new.runs + 1 ≡ self.old.runs }
        ensures rest { self.new ≡ record self.old {
          runs = self.new.runs;
          readers = self.new.readers;
          writers = self.new.writers;
        } }
        // What was seen in a run before is seen still: the readers are those of the same shards.
        ensures readers { AreLater self.old.readers self.new.readers }
        ensures writers { AreOfSameShards self.old.writers self.new.writers }
        ensures met { All (HasMet self.new.readers) self.new.writers }
    {
        let Some(mut readers) = self.readers.take() else {
            unreachable!()
        };
        let Some(parts) = self.parts.pop() else {
            unreachable!()
        };
        readers.begin();
        let (worked, mut readers) = go_lent::<Brand, R, G, I, O, E, L>(
            rt,
            alloc,
            self.crew,
            &mut self.team,
            readers,
            parts,
            &self.wakers,
            self.knows,
            walk,
            gate,
            devices,
            steps,
        );
        meet_all(&mut readers, &self.team);
        self.readers = Some(readers);
        self.knows = true;
        worked
    }
}

// The parts of so many runs.
fn parts_of(
    alloc: Global,
    guessing: Guessing,
    crew: Crew,
    runs: usize,
) -> Result<Vec<RunParts>, Memory>
    requires workers { (1 ≤ crew.workers) × (crew.workers ≤ MOST_WORKERS) }
    requires queue { (1 ≤ crew.queue) × (crew.queue ≤ MOST_WAITING) }
    requires ahead { guessing.ahead ≤ MOST_AHEAD }
    ensures count { IfOk result (λ parts. length parts.items ≡ runs) }
    ensures each { IfOk result (λ parts. All (IsForRun guessing crew) parts.items) }
{
    let mut parts = Vec::with_capacity(alloc, runs)?;
    for _ in 0..runs {
        parts.push(RunParts::open(alloc, guessing, crew)?)?;
    }
    Ok(parts)
}

// A team with a worker for each writer, and what wakes them. They have no queue yet: until a run begins each has a flag of a
// halter that is gone.
fn team_of<R: Wait + Drop>(
    alloc: Global,
    shape: Shape,
    guessing: Guessing,
    writers: Vec<ShardWriter<R>>,
) -> Result<(Team<ShardWriter<R>, Flag>, Vec<Unparker>), Memory>
    requires some { 0 < length writers.items }
    requires few { length writers.items ≤ MOST_WORKERS }
    requires laps { 1 ≤ guessing.laps }
    requires span { 1 ≤ guessing.span }
    ensures team { IfOk result (λ r. (readers : List ShardReader) → All (IsWriterOf readers) writers.items
        → IsTeamOf shape guessing (length writers.items) readers r.0) }
    ensures wakers { IfOk result (λ r. length r.1.items ≡ length writers.items) }
{
    let (_halter, flags) = Halter::open(alloc, writers.len())?;
    let workers = workers_of(alloc, shape, guessing, writers, flags)?;
    let (team, wakers) = Team::new(alloc, workers)?;
    Ok((team, wakers))
}

// A worker for each writer.
fn workers_of<R: Wait + Drop>(
    alloc: Global,
    shape: Shape,
    guessing: Guessing,
    mut writers: Vec<ShardWriter<R>>,
    mut flags: Vec<Flag>,
) -> Result<Vec<Worker<ShardWriter<R>, Flag>>, Memory>
    requires flags { length writers.items ≡ length flags.items }
    requires laps { 1 ≤ guessing.laps }
    requires span { 1 ≤ guessing.span }
    ensures number { IfOk result (λ w. length w.items ≡ length writers.items) }
    ensures each { IfOk result (λ w. All (λ w. w.tally ≡ no_jobs) w.items) }
    ensures bounds { IfOk result (λ w. All (HasBoundsOf shape guessing) w.items) }
    ensures writers { IfOk result (λ w. (readers : List ShardReader) → All (IsWriterOf readers) writers.items
        → All (λ w. IsWriterOf readers w.writer) w.items) }
{
    let mut workers = Vec::with_capacity(alloc, writers.len())?;
    while let Some(writer) = writers.pop() {
        let Some(flag) = flags.pop() else {
            unreachable!()
        };
        let (laps, span, join) = (guessing.laps, guessing.span, guessing.join);
        match Worker::new(alloc, shape, laps, span, writer, flag, join) {
            Ok(worker) => workers.push(worker)?,
            Err((memory, _writer, _flag)) => return Err(memory),
        }
    }
    Ok(workers)
}

// The writer of each worker tells, and its shard's reader learns.
fn meet_all<R: Wait + Drop>(readers: &mut ShardReaders<R>, team: &Team<ShardWriter<R>, Flag>)
    requires { All (λ p. IsOwnReader p.worker.writer readers.old.readers) team.now.posts }
    ensures met { All (λ p. HasMet readers.new.readers p.worker.writer) team.now.posts }
    ensures later { AreLater readers.old.readers readers.new.readers }
{
    for i in 0..team.len() {
        readers.meet(team.worker(i).writer());
    }
}
