//! Faults of an instruction.
ghost use Rattle.std.specs.Prelude.{◌≡◌, ◌<◌, ◌≤◌, ◌&&◌};
ghost use Rattle.asc_model.specs.Shape.{holds};
ghost use Rattle.asc_model.specs.Step.{is_aligned};
ghost use Rattle.asc_step.specs.Execute.{word_fault};

use crate::Stepped;
use asc_model::{Fault, FaultKind};
use asc_shape::Shape;

/// A fault of the instruction at this pc.
#[inline(always)]
pub(crate) fn fault(kind: FaultKind, pc: u32, value: u32) -> Stepped
    ensures { result ≡ Stepped.Faulted (record { kind = kind; pc = pc; value = value }) }
{
    Stepped::Faulted(Fault { kind, pc, value })
}

/// Whether an address is a multiple of 4.
#[inline(always)]
pub(crate) fn is_aligned(address: u32) -> bool
    ensures { result ≡ is_aligned address }
{
    address.is_multiple_of(4)
}

/// Whether the word at an address is aligned and in memory.
#[inline(always)]
fn is_reached(shape: Shape, address: u32) -> bool
    ensures { result ≡ is_aligned address && holds shape address 4 }
{
    let offset = address.wrapping_sub(shape.base());
    // One test for both, since memory begins at a multiple of 4. The two lowest bits of the offset come to stand on top,
    // where they make the number greater than any count of words.
    (offset >> 2) + (offset << 30) < shape.size() / 4
}

/// Whether the `n` bytes from an address on are all in memory, for `n` from 1 to 4.
#[inline(always)]
pub(crate) fn holds(shape: Shape, address: u32, n: u32) -> bool
    requires some { 0 < n }
    requires n { n ≤ 4 }
    ensures { result ≡ holds shape address n }
{
    address.wrapping_sub(shape.base()) <= shape.size() - n
}

/// Why the word at an address cannot be reached. Its alignment is tested first, and then whether it is in memory.
#[inline(always)]
pub(crate) fn word_fault(
    shape: Shape,
    address: u32,
    misaligned: FaultKind,
    outside: FaultKind,
) -> Option<FaultKind>
    ensures { result ≡ word_fault shape address misaligned outside }
{
    if is_reached(shape, address) {
        return None;
    }
    Some(if is_aligned(address) {
        outside
    } else {
        misaligned
    })
}
