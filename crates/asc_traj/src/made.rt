ghost use Rattle.std.specs.Prelude.{◌≡◌, ◌≤◌, ◌&&◌, true, if◌then◌else◌};
ghost use Rattle.std.specs.Option.{is_none};
ghost use Rattle.asc_model.specs.Reach.{reach_of, why_no_step};
ghost use Rattle.asc_model.specs.Step.{next};
ghost use Rattle.asc_shape.specs.Face.{room_of};
ghost use Rattle.asc_depvec.specs.Tracer.{IsTracing, face_of};
ghost use Rattle.asc_traj.specs.declared.made.Made.TheVariants as made;
ghost use Rattle.asc_traj.specs.Made.{IsMade};
ghost use Rattle.asc_traj.specs.Inside.{HasTraced};
ghost use Rattle.asc_traj.specs.Trace.{bounds_of, is_stopped};

use crate::tracing::{attempt_anew, known};
use crate::{Entry, Halt, Stop, Traced, trace};
use asc_depvec::Tracer;
use asc_model::{STEP_ROOM, Why};
use asc_shape::Guess;
use std::alloc::Global;
use std::sync::Arc;

/// What became of a guess.
#[derive(Drop)]
pub enum Made {
    /// The entry of its trace.
    One(Arc<Entry>),
    /// No step of it could be traced.
    Empty,
    /// Its halt said so. The guess has a next step.
    Stopped,
    /// Memory was wanting.
    Refused,
}

impl Entry {
    /// Starts a tracer from a guess, traces it as `trace` does, and makes the entry of the steps taken. It costs what
    /// the trace touches, and what the tracer touched last.
    pub fn traced<H: Halt>(
        alloc: Global,
        tracer: &mut Tracer,
        guess: Guess,
        stop: &Stop,
        halt: &mut H,
    ) -> Made
        requires shape { guess.shape ≡ tracer.old.shape }
        requires laps { 1 ≤ stop.now.laps }
        requires span { 1 ≤ stop.now.span }
        ensures made { IsMade (bounds_of stop.now tracer.old.cap) guess (H.count halt.old) (H.count halt.new) result }
        ensures empty { reach_of (bounds_of stop.now tracer.old.cap) guess ≡ 0 → result ≡ made.Empty }
        ensures shape { tracer.new.shape ≡ tracer.old.shape }
        ensures own_shape { tracer.new.state.shape ≡ tracer.old.shape }
        ensures cap { tracer.new.cap ≡ tracer.old.cap }
    {
        let traced = trace_guess(tracer, guess, stop, halt);
        if traced.steps == 0 {
            return unstarted(tracer, traced.why);
        }
        if is_stopped(traced.why) {
            return Made::Stopped;
        }
        match Entry::of(alloc, tracer, traced.steps) {
            Ok(entry) => Made::One(entry),
            Err(_) => Made::Refused,
        }
    }
}

/// Starts a tracer from a guess, and traces it.
#[inline]
fn trace_guess<H: Halt>(tracer: &mut Tracer, guess: Guess, stop: &Stop, halt: &mut H) -> Traced
    requires shape { guess.shape ≡ tracer.old.shape }
    requires laps { 1 ≤ stop.now.laps }
    requires span { 1 ≤ stop.now.span }
    ensures ended { HasTraced (bounds_of stop.now tracer.old.cap) guess result.steps result.why
        (H.count halt.old) (H.count halt.new) tracer.new }
    ensures tracer { IsTracing tracer.new }
    ensures shape { tracer.new.shape ≡ tracer.old.shape }
{
    // That it is a state.
    let _ = guess.shape();
    tracer.start(guess);
    let traced = trace(tracer, stop, halt);
    known(tracer);
    traced
}

/// What becomes of a guess of which no step was traced. Where its halt said to stop, one step is tried, which tells whether
/// there is a next one.
fn unstarted(tracer: &mut Tracer, why: Why) -> Made
    requires { is_stopped why ≡ true → STEP_ROOM ≤ room_of (face_of tracer.old).marks }
    ensures made { result ≡ (if is_stopped why && is_none (why_no_step (next tracer.old.state)) then made.Stopped else made.Empty) }
    ensures tracer { IsTracing tracer.new }
    ensures shape { tracer.new.shape ≡ tracer.old.shape }
    ensures cap { tracer.new.cap ≡ tracer.old.cap }
{
    known(tracer);
    if !is_stopped(why) {
        return Made::Empty;
    }
    if goes_on(tracer) {
        Made::Stopped
    } else {
        Made::Empty
    }
}

/// Whether a tracer's state has a next step. It tries one.
fn goes_on(tracer: &mut Tracer) -> bool
    requires { STEP_ROOM ≤ room_of (face_of tracer.old).marks }
    ensures goes { result ≡ is_none (why_no_step (next tracer.old.state)) }
    ensures tracer { IsTracing tracer.new }
    ensures shape { tracer.new.shape ≡ tracer.old.shape }
    ensures cap { tracer.new.cap ≡ tracer.old.cap }
{
    let mut why = Why::Stopped;
    let goes = attempt_anew(tracer, &mut why);
    known(tracer);
    goes
}

/// Whether a trace ended since its halt said so.
#[inline]
fn is_stopped(why: Why) -> bool
    ensures { result ≡ is_stopped why }
{
    matches!(why, Why::Stopped)
}
