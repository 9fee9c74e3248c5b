ghost use Rattle.std.specs.Prelude.{◌≡◌, ◌≢◌, ◌≤◌};
ghost use Rattle.asc_guess.specs.Guess.{guess_of};
ghost use Rattle.asc_traj.specs.declared.made.Made.TheVariants as became;
ghost use Rattle.asc_traj.specs.Made.{IsMade};
ghost use Rattle.asc_find.specs.Serial.{bounds_at};

use asc_depvec::Tracer;
use asc_find::Guessing;
use asc_guess::{Kind, guess_from};
use asc_model::MOST_PLACES;
use asc_shape::Snapshot;
use asc_traj::{Entry, Made, Never, Stop};
use std::alloc::Global;
use std::sync::Arc;

/// Guesses the state that is `ahead` visits after the last one, and traces it up to that one's pc. It costs what
/// the trace touches, and what the tracer touched last. Where memory is wanting for a share of a snapshot it is refused too.
pub(crate) fn make(
    alloc: Global,
    tracer: &mut Tracer,
    prev: &Arc<Snapshot>,
    last: &Arc<Snapshot>,
    guessing: &Guessing,
    kind: Kind,
    ahead: u32,
) -> Made
    requires prev { prev.now.value.shape ≡ last.now.value.shape }
    requires shape { last.now.value.shape ≡ tracer.old.shape }
    requires own_shape { tracer.old.state.shape ≡ tracer.old.shape }
    requires cap { tracer.old.cap ≡ MOST_PLACES }
    requires laps { 1 ≤ guessing.now.laps }
    requires span { 1 ≤ guessing.now.span }
    ensures made { result ≢ became.Refused → IsMade (bounds_at guessing.now last.now.value)
        (guess_of kind ahead prev.now.value last.now.value) 0 0 result }
    ensures shape { tracer.new.shape ≡ tracer.old.shape }
    ensures own_shape { tracer.new.state.shape ≡ tracer.old.shape }
    ensures cap { tracer.new.cap ≡ tracer.old.cap }
{
    let stop = Stop {
        pc: last.pc(),
        laps: guessing.laps,
        span: guessing.span,
    };
    match guess_from(kind, prev, last, ahead) {
        Ok(guess) => Entry::traced(alloc, tracer, guess, &stop, &mut Never),
        Err(_) => Made::Refused,
    }
}
