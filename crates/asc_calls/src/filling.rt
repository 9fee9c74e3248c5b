//! How a call takes bytes: a source may give fewer than are asked for.

ghost use Rattle.std.specs.Prelude.{◌≡◌, ◌<◌, IsTrue, IfOk, OnErr};
ghost use Rattle.asc_model.specs.Shape.{holds};
ghost use Rattle.asc_outside.specs.Outside.{HasCause, IsAtEnd};
ghost use Rattle.asc_calls.specs.Filling.{Fills, FillsPart};

use asc_outside::{Failed, Source};
use asc_shape::State;

/// Takes bytes of a source into memory, where a buffer of n bytes begins, until it is full, or the end of the input is
/// found, and tells how many. Where n is 0 the source is not asked.
pub(crate) fn fill<I: Source>(
    input: &mut I,
    state: &mut State,
    buffer: u32,
    n: u32,
) -> Result<u32, Failed>
    requires { IsTrue (holds state.old.shape buffer n) }
    ensures fills { IfOk result
        (λ count. Fills (I.left input.old) (I.left input.new) state.old state.new buffer n count) }
    ensures end { IfOk result (λ count. count < n → IsAtEnd (I.left input.new)) }
    ensures part { OnErr result (FillsPart (I.left input.old) (I.left input.new) state.old state.new buffer n) }
    ensures cause { HasCause (I.faults input.old) (I.faults input.new) result }
{
    // The shape tells that this is a state, so that its memory holds the buffer.
    let _ = state.shape();
    let mut filled = 0;
    while filled < n {
        let count = take_once(input, state, buffer + filled, n - filled)?;
        if count == 0 {
            break;
        }
        filled += count;
    }
    Ok(filled)
}

/// Asks a source once for bytes, at most n, takes them into memory from an address on, and tells how many.
///
/// Where the source fails, nothing is taken, and the state stays.
fn take_once<I: Source>(input: &mut I, state: &mut State, at: u32, n: u32) -> Result<u32, Failed>
    requires within { IsTrue (holds state.old.shape at n) }
    requires some { 0 < n }
    ensures fills { IfOk result
        (λ count. Fills (I.left input.old) (I.left input.new) state.old state.new at n count) }
    ensures end { result ≡ Ok 0 → IsAtEnd (I.left input.new) }
    ensures nothing { OnErr result (I.left input.new ≡ I.left input.old) }
    ensures stays { OnErr result (state.new ≡ state.old) }
    ensures cause { HasCause (I.faults input.old) (I.faults input.new) result }
{
    // The shape tells that this is a state, before the call and after it.
    let _ = state.shape();
    let count = state.take_in(at, n, input)? as u32;
    let _ = state.shape();
    Ok(count)
}
