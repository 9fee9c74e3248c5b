ghost use Rattle.std.specs.Prelude.{◌≡◌, IfOk};
ghost use Rattle.asc_guess.specs.Guess.{guess_of};

use crate::Kind;
use asc_shape::{Guess, Snapshot};
use std::alloc::AllocError;
use std::sync::Arc;

/// Guesses the state that is `ahead` visits after the last one, from the states of that and of the one before. It takes
/// no memory, and the guess's words are computed as they are asked for; `Guess::fill` writes a whole state.
pub fn guess(kind: Kind, prev: Arc<Snapshot>, last: Arc<Snapshot>, ahead: u32) -> Guess
    requires { prev.value.shape ≡ last.value.shape }
    ensures { result ≡ guess_of kind ahead prev.value last.value }
{
    match kind {
        Kind::Last => Guess::last(last),
        Kind::Stride => Guess::stride(prev, last, ahead),
    }
}

/// The same, from shares of both snapshots. A share is refused where a snapshot has too many.
pub fn guess_from(
    kind: Kind,
    prev: &Arc<Snapshot>,
    last: &Arc<Snapshot>,
    ahead: u32,
) -> Result<Guess, AllocError>
    requires { prev.now.value.shape ≡ last.now.value.shape }
    ensures { IfOk result (λ guess. guess ≡ guess_of kind ahead prev.now.value last.now.value) }
{
    let prev = Arc::try_clone(prev)?;
    let last = Arc::try_clone(last)?;
    Ok(guess(kind, prev, last, ahead))
}
