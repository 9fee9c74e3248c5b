ghost use Rattle.std.specs.Prelude.{◌≡◌, ◌≢◌, ℕ, ◌+◌, ◌*◌, ◌<◌, ◌≤◌, ◌++◌, [], ◌∷◌, Some, None, true, IfOk, length, set, slice_index_or, vec_capacity};
ghost use Rattle.std.specs.Option.{is_some};
ghost use Rattle.asc_model.specs.Machine.{view_of};
ghost use Rattle.asc_model.specs.Shape.{Shape};
ghost use Rattle.asc_guess.specs.Guess.{guess_of};
ghost use Rattle.asc_traj.specs.declared.made.Made.TheVariants as made;
ghost use Rattle.asc_traj.specs.Made.{IsMade};
ghost use Rattle.asc_traj.specs.Trace.{guess_bounds};
ghost use Rattle.asc_work.specs.Inside.{HasOwn, IsOwn};
ghost use Rattle.asc_work.specs.Lanes.{HasRunAll, HasRunOnly, IsDoneAt, IsLane, IsRound};

use crate::worker::make_tracer;
use asc_depvec::{Tracer, Unfilled};
use asc_guess::{Kind, guess_from};
use asc_model::MOST_PLACES;
use asc_outside::{Gate, Memory, Point};
use asc_shape::{Shape, Snapshot};
use asc_traj::{Entry, Made, Never, Stop};
use std::alloc::Global;
use std::sync::Arc;

/// The jobs of a round, and what they have in common.
#[derive(Drop)]
pub(crate) struct Round<'a> {
    /// The states of the visit before the last one, and of that.
    pub(crate) prev: &'a Arc<Snapshot>,
    pub(crate) last: &'a Arc<Snapshot>,
    /// The jobs, each with its kind and how many visits it guesses ahead.
    pub(crate) jobs: &'a [(Kind, u32)],
    /// The ticket of the first job.
    pub(crate) first: u64,
    /// Over how many laps and steps a guess is traced.
    pub(crate) laps: u64,
    pub(crate) span: u64,
    /// How many lanes there are.
    pub(crate) lanes: usize,
}

/// A tracer of its own, and what became of the jobs that it ran in the last round, in their order.
#[derive(Drop)]
pub(crate) struct Lane {
    alloc: Global,
    // The memory of its tracer, until its first job.
    unfilled: Option<Unfilled>,
    // Its tracer, from then on.
    tracer: Option<Tracer>,
    // There is room for its part of a round. A result that was taken is none.
    results: Vec<Option<Made>>,
}

impl Lane {
    /// A lane that has run no job. All memory of its tracer is taken here, and room for so many results.
    pub(crate) fn new(alloc: Global, shape: Shape, room: usize) -> Result<Lane, Memory>
        ensures own { IfOk result (λ lane. HasOwn shape lane.unfilled lane.tracer) }
        ensures room { IfOk result (λ lane. room ≤ vec_capacity lane.results) }
        ensures empty { IfOk result (λ lane. lane.results.items ≡ []) }
    {
        Ok(Lane {
            alloc,
            unfilled: Some(Unfilled::new(alloc, shape, MOST_PLACES)?),
            tracer: None,
            results: Vec::with_capacity(alloc, room)?,
        })
    }

    /// Runs its jobs of a round in their order: the one at `at`, and each that is so many further on as there are lanes.
    /// The gate is passed at `Traced` once a job's guess was traced. It takes no memory but that of the entries, and of
    /// shares of the snapshots.
    pub(crate) fn run<G: Gate>(&mut self, at: usize, round: &Round<'_>, gate: &G)
        requires round { IsRound round.now.last.now.value.shape round.now }
        requires lane { IsLane round.now.last.now.value.shape round.now.lanes self.old }
        ensures lane { IsLane round.now.last.now.value.shape round.now.lanes self.new }
        ensures done { HasRunAll round.now at self.new }
        ensures only { HasRunOnly round.now at self.new }
    {
        self.results.clear();
        let mut i = at;
        while i < round.jobs.len() {
            let made = self.make(round, i);
            gate.pass(Point::Traced, round.first + i as u64);
            keep(&mut self.results, made);
            i += round.lanes;
        }
    }

    /// Whether the result of its job at `at` of those that it ran is there.
    pub(crate) fn has(&self, at: usize) -> bool
        ensures { result ≡ is_some (slice_index_or self.now.results.items at None) }
    {
        at < self.results.len() && self.results[at].is_some()
    }

    /// Takes the result of its job at `at` of those that it ran.
    pub(crate) fn take(&mut self, at: usize) -> Made
        requires { is_some (slice_index_or self.old.results.items at None) ≡ true }
        ensures result { slice_index_or self.old.results.items at None ≡ Some result }
        ensures left { self.new.results.items ≡ set self.old.results.items at None }
        ensures room { vec_capacity self.new.results ≡ vec_capacity self.old.results }
        ensures unfilled { self.new.unfilled ≡ self.old.unfilled }
        ensures tracer { self.new.tracer ≡ self.old.tracer }
    {
        match self.results[at].take() {
            Some(made) => made,
            None => unreachable!(),
        }
    }

    // Guesses the state of a job, and traces it.
    fn make(&mut self, round: &Round<'_>, i: usize) -> Made
        requires round { IsRound round.now.last.now.value.shape round.now }
        requires own { HasOwn round.now.last.now.value.shape self.old.unfilled self.old.tracer }
        requires job { i < length round.now.jobs.now }
        ensures own { HasOwn round.now.last.now.value.shape self.new.unfilled self.new.tracer }
        ensures results { self.new.results ≡ self.old.results }
        ensures made { IsDoneAt round.now i (Some result) }
    {
        make_tracer(&mut self.unfilled, &mut self.tracer);
        let Some(tracer) = &mut self.tracer else {
            unreachable!()
        };
        let (kind, ahead) = round.jobs[i];
        trace_job(self.alloc, tracer, round, kind, ahead)
    }
}

// Puts a result behind others, for which there is room.
fn keep(results: &mut Vec<Option<Made>>, made: Made)
    requires { length results.old.items < vec_capacity results.old }
    ensures items { results.new.items ≡ results.old.items ++ Some made ∷ [] }
    ensures room { vec_capacity results.old ≤ vec_capacity results.new }
{
    let Ok(()) = results.push(Some(made)) else {
        unreachable!()
    };
}

// Guesses the state that is `ahead` visits after the last one, and traces it up to that one's pc.
fn trace_job(alloc: Global, tracer: &mut Tracer, round: &Round<'_>, kind: Kind, ahead: u32) -> Made
    requires round { IsRound round.now.last.now.value.shape round.now }
    requires own { IsOwn round.now.last.now.value.shape tracer.old }
    ensures made { result ≢ made.Refused
        → IsMade (guess_bounds (view_of round.now.last.now.value).pc round.now.laps round.now.span)
        (guess_of kind ahead round.now.prev.now.value round.now.last.now.value) 0 0 result }
    ensures own { IsOwn round.now.last.now.value.shape tracer.new }
{
    let stop = Stop {
        pc: round.last.pc(),
        laps: round.laps,
        span: round.span,
    };
    match guess_from(kind, round.prev, round.last, ahead) {
        Ok(guess) => Entry::traced(alloc, tracer, guess, &stop, &mut Never),
        Err(_) => Made::Refused,
    }
}
