ghost use Rattle.std.specs.Prelude.{◌≡◌, ◌^◌, ◌<◌, ◌≤◌, [], ◌∷◌, length, slice_index_or, Some, None, IfOk, IfSome, MatchOption};
ghost use Rattle.std.specs.Arc.{arc_value};
ghost use Rattle.asc_traj.specs.Jump.{IsJump};
ghost use Rattle.asc_find.specs.Finder.{jumps_after, Tells};
ghost use Rattle.asc_find.specs.Serial.{Serial as machine, serial_reply};
ghost use Rattle.asc_find.specs.Helper.{Plans, VisitsMachine};
ghost use Rattle.asc_shard.specs.Content.{inserted_in};
ghost use Rattle.asc_run.specs.SerialHelper.{IsPlanned, IsSettled, added, begun, first_helper, aid_of, told_machine};
ghost use Rattle.asc_run.specs.SerialInside.{AddsJoin, MakesJob};

use crate::joining::join_newest;
use crate::last_visits::LastVisits;
use crate::made::make;
use asc_depvec::Tracer;
use asc_find::{Finder, Guessing, Helper};
use asc_guess::Kind;
use asc_model::{MOST_AHEAD, MOST_ENTRIES, MOST_GUESSES, MOST_PLACES};
use asc_outside::Memory;
use asc_shape::{Shape, Snapshot, State};
use asc_shard::{Inserted, Shard};
use asc_traj::{Entry, Made};
use std::alloc::Global;
use std::marker::Model;
use std::sync::Arc;

/// The helper of a run without workers. At a visit it guesses the states of visits to come, traces them, and keeps the
/// entries, by which it then finds jumps.
///
/// A visit is made of calls that another runner may make in its place, and do the jobs itself: `plan`, and then, for
/// each of its jobs in order, `settle` with what became of it. `jobs` and `pair` tell what a job is.
///
/// Where memory is wanting less is guessed, and that is counted. Each jump is a plain run all the same.
#[derive(Drop)]
pub struct Serial {
    alloc: Global,
    shape: Shape,
    tracer: Tracer,
    shard: Shard,
    visits: LastVisits,
    asked: u64,
    given: u64,
    hits: u64,
    made: u64,
    refused: u64,
}

impl Model for Serial {
    ghost use Rattle.asc_run.specs.SerialHelper.{SerialHelper};

    ghost Value = { SerialHelper };

    ghost use Rattle.asc_run.specs.SerialInside.{IsHelper, helper_of};

    ghost view = { helper_of };

    ghost invariant = { IsHelper };
}

impl Serial {
    /// A helper that was not visited yet, and has no entry. Laps and span are at least 1. What its tracer and its shard
    /// may hold is reserved here.
    pub fn new(alloc: Global, shape: Shape, guessing: Guessing) -> Result<Serial, Memory>
        requires laps { 1 ≤ guessing.laps }
        requires span { 1 ≤ guessing.span }
        requires ahead { guessing.ahead ≤ MOST_AHEAD }
        ensures { IfOk result (λ s. s ≡ first_helper shape guessing) }
    {
        let tracer = Tracer::new(alloc, shape, MOST_PLACES)?;
        let shard = Shard::new(alloc, MOST_ENTRIES)?;
        let visits = LastVisits::new(alloc, guessing)?;
        Ok(Serial {
            alloc,
            shape,
            tracer,
            shard,
            visits,
            asked: 0,
            given: 0,
            hits: 0,
            made: 0,
            refused: 0,
        })
    }

    /// What it keeps.
    pub fn content(&self) -> &Shard
        ensures { result.now ≡ record { held = self.now.machine.content; capacity = MOST_ENTRIES } }
    {
        &self.shard
    }

    /// Adds an entry that another run has kept, as one of its own would be. No allocator is handed in.
    pub fn preload(&mut self, entry: Arc<Entry>) -> Inserted
        ensures added { self.new ≡ added self.old (arc_value entry) }
        ensures answer { result ≡ inserted_in self.old.machine.content (arc_value entry) }
    {
        self.shard.insert(entry)
    }

    /// Before the first visit of a further run, which begins with the entries that the runs before left. It counts from 0
    /// on. It takes no memory.
    pub fn begin(&mut self)
        ensures { self.new ≡ begun self.old }
    {
        self.visits.begin();
        self.asked = 0;
        self.given = 0;
        self.hits = 0;
        self.made = 0;
        self.refused = 0;
    }

    /// Plans the guesses of a visit, which is the walk's `number`th, and answers how many jobs they are. A copy of the
    /// state is kept, which costs what changed since the last one. Where memory is wanting, both copies that are kept are
    /// given up. At a state of another shape there is no job, and nothing is planned.
    pub fn plan(&mut self, state: &mut State, number: u64) -> usize
        requires number { number ≤ 2 ^ 40 }
        requires made { self.old.made < 2 ^ 62 }
        ensures jobs { result ≡ length self.new.jobs }
        ensures few { result ≤ MOST_GUESSES }
        ensures planned { IsPlanned number state.old self.old self.new }
        ensures stays { state.new ≡ state.old }
    {
        self.visits.clear_jobs();
        if state.shape() != self.shape {
            return 0;
        }
        if self.visits.keep(self.alloc, state).is_err() {
            self.refused = self.refused.saturating_add(1);
            return 0;
        }
        self.visits.plan(number);
        let jobs = self.visits.jobs().len();
        self.made += jobs as u64;
        jobs
    }

    /// The jobs of the last plan in their order: each one's kind, and how many visits after the last one it guesses.
    pub fn jobs(&self) -> &[(Kind, u32)]
        ensures jobs { result.now ≡ self.now.jobs }
        ensures few { length result.now ≤ MOST_GUESSES }
    {
        self.visits.jobs()
    }

    /// One of them.
    pub fn job(&self, i: usize) -> (Kind, u32)
        requires { i < length self.now.jobs }
        ensures { result ≡ slice_index_or self.now.jobs i result }
    {
        self.jobs()[i]
    }

    /// The states of the visit before the last one and of the last one, where there were two and their copies are kept.
    pub fn pair(&self) -> Option<(&Arc<Snapshot>, &Arc<Snapshot>)>
        ensures states { MatchOption result (self.now.machine.prev ≡ None)
            (λ pair. (self.now.machine.prev ≡ Some pair.0.now.value)
            × (self.now.machine.last ≡ Some pair.1.now.value)) }
        ensures shape { IfSome result (λ pair. (pair.0.now.value.shape ≡ self.now.machine.shape)
            × (pair.1.now.value.shape ≡ self.now.machine.shape)) }
    {
        self.visits.pair()
    }

    /// Notes what became of the next job. An entry is kept, and where entries are joined and it was not held, so is its
    /// join behind the newest other that it may follow.
    pub fn settle(&mut self, made: Made)
        ensures { IsSettled self.old made self.new }
    {
        match made {
            Made::One(entry) => {
                let stored = self.shard.insert(entry) == Inserted::Stored;
                if stored && self.visits.guessing().join {
                    self.add_join();
                }
            }
            Made::Empty | Made::Stopped => {}
            Made::Refused => self.refused = self.refused.saturating_add(1),
        }
    }

    // Adds the join of the entry that was put last. Where memory is wanting for it, that is counted.
    fn add_join(&mut self)
        requires { 0 < length self.old.machine.content }
        ensures { AddsJoin self.old self.new }
    {
        match join_newest(self.alloc, &self.shard) {
            Ok(Some(joined)) => {
                self.shard.insert(joined);
            }
            Ok(None) => {}
            Err(Memory) => self.refused = self.refused.saturating_add(1),
        }
    }

    // Does a job itself.
    fn make(&mut self, i: usize) -> Made
        requires { i < length self.old.jobs }
        ensures stays { self.new ≡ self.old }
        ensures made { MakesJob self.old i result }
    {
        let (kind, ahead) = self.job(i);
        let guessing = self.visits.guessing();
        match self.visits.pair() {
            Some((prev, last)) => make(
                self.alloc,
                &mut self.tracer,
                prev,
                last,
                &guessing,
                kind,
                ahead,
            ),
            None => Made::Empty,
        }
    }
}

/// Where a walk lands on a visit it learns of the state there, and is asked for a jump by its entries.
impl Finder for Serial {
    ghost aid = { aid_of };

    fn jump(&mut self, state: &mut State, left: u64) -> Option<u64>
        requires left { left ≤ 2 ^ 40 }
        requires asked { self.old.jumps.asked < 2 ^ 62 }
        requires given { self.old.jumps.given < 2 ^ 62 }
        ensures found { result ≡ serial_reply self.old.machine state.old left }
        ensures stays { self.new ≡ record self.old { jumps = jumps_after self.old.jumps result } }
        ensures jump { IsJump result left state.old state.new }
        ensures jumps { self.new.jumps ≡ jumps_after self.old.jumps result }
        ensures replies { Tells (result ∷ []) None None }
        ensures plan { (aid_of self.new).plan ≡ (aid_of self.old).plan }
        ensures machine { told_machine self.new ≡ told_machine self.old }
        ensures longest { (m : machine) → told_machine self.old ≡ Some m → result ≡ serial_reply m state.old left }
    {
        self.asked += 1;
        let found = self.shard.jump(state, left);
        if let Some(steps) = found {
            self.given += steps;
            self.hits += 1;
        }
        found
    }

    fn asked(&self) -> u64 {
        self.asked
    }

    fn given(&self) -> u64 {
        self.given
    }

    fn hits(&self) -> u64 {
        self.hits
    }
}

impl Helper for Serial {
    fn visit(&mut self, state: &mut State, number: u64) {
        let jobs = self.plan(state, number);
        for i in 0..jobs {
            let made = self.make(i);
            self.settle(made);
        }
    }

    fn made(&self) -> u64 {
        self.made
    }

    fn refused(&self) -> u64 {
        self.refused
    }

    fn full(&self) -> u64 {
        0
    }
}
