//! The entry of a lap.
ghost use Rattle.std.specs.Prelude.{◌≡◌, ◌≤◌, IfOk};
ghost use Rattle.asc_traj.specs.Trace.{guess_bounds};
ghost use Rattle.asc_inspect.specs.Visited.{IsLap};

use asc_depvec::Tracer;
use asc_model::{MOST_PLACES, Why};
use asc_outside::Memory;
use asc_shape::{Guess, Snapshot, State};
use asc_traj::{Entry, Never, Stop, trace};
use std::alloc::Global;
use std::sync::Arc;

/// What was traced from a state.
#[derive(Drop)]
pub(crate) struct Lap {
    /// The entry of the steps, where there are any.
    pub(crate) entry: Option<Arc<Entry>>,
    /// Why no more were taken.
    pub(crate) why: Why,
}

/// Traces a state until steps have led to `pc` `laps` times, or the trace ends before.
pub(crate) fn trace_lap(
    alloc: Global,
    state: &State,
    pc: u32,
    laps: u64,
    span: u64,
) -> Result<Lap, Memory>
    requires laps { 1 ≤ laps }
    requires span { 1 ≤ span }
    ensures { IfOk result (λ lap. IsLap (guess_bounds pc laps span) state.now lap) }
{
    let guess = Guess::last(Snapshot::of(alloc, state)?);
    trace_guess(alloc, guess, pc, laps, span)
}

/// Traces a guess until steps have led to `pc` `laps` times, or the trace ends before.
pub(crate) fn trace_guess(
    alloc: Global,
    guess: Guess,
    pc: u32,
    laps: u64,
    span: u64,
) -> Result<Lap, Memory>
    requires laps { 1 ≤ laps }
    requires span { 1 ≤ span }
    ensures { IfOk result (λ lap. IsLap (guess_bounds pc laps span) guess lap) }
{
    let mut tracer = Tracer::new(alloc, guess.shape(), MOST_PLACES)?;
    tracer.start(guess);
    let traced = trace(&mut tracer, &Stop { pc, laps, span }, &mut Never);
    let entry = if traced.steps == 0 {
        None
    } else {
        Some(Entry::of(alloc, &mut tracer, traced.steps)?)
    };
    Ok(Lap {
        entry,
        why: traced.why,
    })
}
