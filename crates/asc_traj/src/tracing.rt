ghost use Rattle.std.specs.Prelude.{◌≡◌, ℕ, ◌≤◌, ◌+◌, ◌-◌, ◌^◌, ◌<◌, true, false, [], length, Some, None, ◌==◌, if◌then◌else◌};
ghost use Rattle.asc_model.specs.Machine.{view_of};
ghost use Rattle.asc_model.specs.Step.{next};
ghost use Rattle.asc_model.specs.Reach.{IsReach, why_no_step};
ghost use Rattle.asc_step.specs.Step.{face_after};
ghost use Rattle.asc_depvec.specs.Tracer.{IsTracing, face_of};
ghost use Rattle.asc_model.specs.State.{IsState};
ghost use Rattle.asc_shape.specs.Face.{FitPlaces, room_of};
ghost use Rattle.asc_traj.specs.Trace.{Asked, CountsAnswer, MayStop, StandsFor, asks_of, bounds_of, is_stopped, origin_of};
ghost use Rattle.asc_traj.specs.Inside.{AreSure, counted, met, why_of};

use crate::Halt;
use asc_depvec::Tracer;
use asc_model::{STEP_ROOM, Why};
use asc_shape::{Bytes, Shape};
use asc_step::{Stepped, step_anew, step_settled};

/// Where a trace is to end.
#[derive(Clone, Copy, Debug, PartialEq, Eq)]
pub struct Stop {
    /// A lap is a step that leads to this pc.
    pub pc: u32,
    /// After how many laps it ends, at least 1.
    pub laps: u64,
    /// After how many steps it ends at the latest, at least 1.
    pub span: u64,
}

/// How a trace ended.
#[derive(Clone, Copy, Debug, PartialEq, Eq)]
pub struct Traced {
    /// The steps taken.
    pub steps: u64,
    /// Why no more were taken.
    pub why: Why,
}

/// Takes steps of a tracer's state until one of these ends it: it made as many laps as `stop` says, or as many steps;
/// fewer than 32 further places may be touched; `halt` says so; or the next step would be a guest call or a fault.
///
/// They are tested in this order, before each step. An attempt that ends in a call or a fault leaves no trace. No
/// allocator is handed in.
pub fn trace<H: Halt>(tracer: &mut Tracer, stop: &Stop, halt: &mut H) -> Traced
    requires untouched { tracer.old.touched ≡ [] }
    requires own_shape { tracer.old.state.shape ≡ tracer.old.shape }
    requires laps { 1 ≤ stop.now.laps }
    requires span { 1 ≤ stop.now.span }

    // The tracer stands for the steps taken, from the state that it had.
    ensures stands { StandsFor result.steps tracer.new }
    ensures start { origin_of tracer.new ≡ tracer.old.state }

    // They are as many as a trace of that state takes, and it ends for the reason for which that trace ends, unless it
    // was stopped.
    ensures reach { is_stopped result.why ≡ false
        → IsReach (bounds_of stop.now tracer.old.cap) tracer.old.state result.steps result.why }
    ensures stopped { is_stopped result.why ≡ true
        → MayStop (bounds_of stop.now tracer.old.cap) tracer.old.state result.steps }

    // It is stopped only where the halt said so, and there at once. It asks once before each attempt at a step.
    ensures halt { CountsAnswer (H.count halt.old) (H.count halt.new) (is_stopped result.why) }
    ensures asks { Asked (H.asks halt.old) (H.asks halt.new) (asks_of result.steps result.why) }

    // Where the halt says no at most so often, no more steps are taken.
    ensures patience { (n : ℕ) → H.patience halt.old ≡ Some n → result.steps ≤ n }

    // It takes no more steps, and touches no more places, than it may.
    ensures most_steps { result.steps ≤ stop.now.span }
    ensures most_places { length tracer.new.touched ≤ tracer.old.cap }
    ensures shape { tracer.new.shape ≡ tracer.old.shape }
    ensures cap { tracer.new.cap ≡ tracer.old.cap }
{
    known(tracer);
    let shape = Bytes::shape(tracer);
    // Memory for what calls out of the loop come to. The loop fills none.
    let mut rare = Stepped::Went;
    let mut why = Why::Span;
    let pc = stop.pc;
    let mut laps = laps_at_start(tracer, pc);
    let mut sure = 0;
    let mut steps = 0;
    loop {
        known(tracer);
        if has_all_laps(tracer, pc, stop, &mut laps) {
            let why = Why::Lap;
            return Traced { steps, why };
        }
        if !is_within(tracer, stop, steps, &mut sure, &mut why) {
            return Traced { steps, why };
        }
        if halt.asked() {
            let why = Why::Stopped;
            return Traced { steps, why };
        }
        if !attempt::<H>(tracer, shape, &mut rare, &mut why) {
            return Traced { steps, why };
        }
        steps += 1;
    }
}

/// The count of laps before the first step. A state at the pc of laps is counted where the next step begins, which
/// reads the pc anyway. No step led to the first state: so where it stands there the count is one below 0, modulo 2^64.
fn laps_at_start(tracer: &Tracer, pc: u32) -> u64
    ensures { result ≡ (if (view_of tracer.now.state).pc == pc then 2 ^ 64 - 1 else 0) }
{
    if tracer.pc() == pc { u64::MAX } else { 0 }
}

/// Counts a lap where the state stands at this pc, and tells whether all laps are made. The pc is that of `stop`, which a
/// loop then need not read again.
#[inline]
fn has_all_laps(tracer: &Tracer, pc: u32, stop: &Stop, laps: &mut u64) -> bool
    requires few { ((view_of tracer.now.state).pc == pc) ≡ false → (laps.old == stop.now.laps) ≡ false }
    ensures counts { laps.new ≡ counted laps.old ((view_of tracer.now.state).pc == pc) }
    ensures all { result ≡ (laps.new == stop.now.laps) }
{
    if tracer.pc() == pc {
        count_lap(laps);
        *laps == stop.laps
    } else {
        false
    }
}

/// Counts a lap.
#[cold]
#[inline(never)]
fn count_lap(laps: &mut u64)
    ensures { laps.new ≡ counted laps.old true }
{
    *laps = laps.wrapping_add(1);
}

/// Tells whether neither the bound of steps nor that of places is met after so many steps and too few laps, and else
/// which is. The first `sure` steps meet none, whatever they touch: so a step costs one test for both.
#[inline]
fn is_within(tracer: &Tracer, stop: &Stop, steps: u64, sure: &mut u64, why: &mut Why) -> bool
    requires own { tracer.now.state.shape ≡ tracer.now.shape }
    requires sure { AreSure stop.now.span steps sure.old (room_of (face_of tracer.now).marks) }
    ensures met { (if result then None else Some why.new) ≡ met (stop.now.span - steps) tracer.now }
    ensures sure { result ≡ true → AreSure stop.now.span steps sure.new (room_of (face_of tracer.now).marks) }
    ensures more { result ≡ true → steps < sure.new }
{
    steps != *sure || look_ahead(tracer, stop, steps, sure, why)
}

/// Tells the same where no more steps are sure, and makes those sure for which there is room.
#[cold]
#[inline(never)]
fn look_ahead(tracer: &Tracer, stop: &Stop, steps: u64, sure: &mut u64, why: &mut Why) -> bool
    requires own { tracer.now.state.shape ≡ tracer.now.shape }
    requires span { steps ≤ stop.now.span }
    ensures met { (if result then None else Some why.new) ≡ met (stop.now.span - steps) tracer.now }
    ensures sure { result ≡ true → AreSure stop.now.span steps sure.new (room_of (face_of tracer.now).marks) }
    ensures more { result ≡ true → steps < sure.new }
{
    let left = stop.span - steps;
    match bound_met(tracer, left) {
        Some(bound) => {
            *why = bound;
            false
        }
        None => {
            *sure = steps + left.min((tracer.room() / STEP_ROOM) as u64);
            true
        }
    }
}

/// The first bound that is met where so many steps are left, and too few laps are made.
#[inline]
fn bound_met(tracer: &Tracer, left: u64) -> Option<Why>
    requires { tracer.now.state.shape ≡ tracer.now.shape }
    ensures { result ≡ met left tracer.now }
{
    if left == 0 {
        Some(Why::Span)
    } else if tracer.room() < STEP_ROOM {
        Some(Why::Room)
    } else {
        None
    }
}

/// Tries one step of a state of this shape, and tells whether it was taken. Where it calls or faults `why` says so, and
/// the reads of the attempt are taken back. Traces under different halts have code of their own. `rare` is memory for
/// what `step_settled` comes to.
#[inline]
fn attempt<H: Halt>(tracer: &mut Tracer, shape: Shape, rare: &mut Stepped, why: &mut Why) -> bool
    requires own { shape ≡ tracer.old.state.shape }
    requires room { STEP_ROOM ≤ room_of (face_of tracer.old).marks }
    ensures ends { (if result then None else Some why.new) ≡ why_no_step (next tracer.old.state) }
    ensures goes { result ≡ true → face_of tracer.new ≡ face_after (face_of tracer.old) }
    ensures back { result ≡ false → tracer.new ≡ tracer.old }
    ensures shape { tracer.new.shape ≡ tracer.old.shape }
    ensures cap { tracer.new.cap ≡ tracer.old.cap }
{
    step_settled::<Tracer, H>(tracer, shape, rare) || attempt_anew(tracer, why)
}

/// Tries one step as `attempt` does, whatever its word. It is out of line, so that the loop of a trace has the steps of
/// settled words alone.
#[cold]
#[inline(never)]
pub(crate) fn attempt_anew(tracer: &mut Tracer, why: &mut Why) -> bool
    requires room { STEP_ROOM ≤ room_of (face_of tracer.old).marks }
    ensures ends { (if result then None else Some why.new) ≡ why_no_step (next tracer.old.state) }
    ensures goes { result ≡ true → face_of tracer.new ≡ face_after (face_of tracer.old) }
    ensures back { result ≡ false → tracer.new ≡ tracer.old }
    ensures shape { tracer.new.shape ≡ tracer.old.shape }
    ensures cap { tracer.new.cap ≡ tracer.old.cap }
{
    known(tracer);
    let count = tracer.touched_count();
    let mut stepped = Stepped::Went;
    step_anew(tracer, &mut stepped);
    match why_of(stepped) {
        None => true,
        Some(ended) => {
            tracer.undo(count);
            *why = ended;
            false
        }
    }
}

/// Why a step was not taken.
#[inline]
fn why_of(stepped: Stepped) -> Option<Why>
    ensures { result ≡ why_of stepped }
{
    match stepped {
        Stepped::Went => None,
        Stepped::Call => Some(Why::Call),
        Stepped::Faulted(fault) => Some(Why::Fault(fault)),
    }
}

/// It does nothing. A caller's proof learns from it what holds of every tracer.
#[inline]
pub(crate) fn known(tracer: &Tracer)
    ensures tracer { IsTracing tracer.now }
    ensures state { IsState tracer.now.state }
    ensures marks { FitPlaces (length tracer.now.state.bytes) (face_of tracer.now).marks }
{
    let _ = tracer.touched_count();
    let _ = Bytes::shape(tracer);
}
