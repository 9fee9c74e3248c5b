// Words that are strided eight at a time.
ghost use Rattle.std.specs.Prelude.{◌≡◌, ◌⊎◌, ◌+◌, ◌*◌, ◌/◌, ◌%◌, ◌^◌, ◌<◌, ◌≤◌, ℕ, length, slice_index};
ghost use Rattle.asc_model.specs.Number.{word_at, bytes_of};
ghost use Rattle.asc_shape.specs.Stride.{strided_byte, strided_word};

use std::simd::prelude::*;

/// How many bytes eight words have.
pub(crate) const EIGHT: usize = 32;

/// Strides the eight words from a place on by those of another list.
#[inline]
pub(crate) fn stride_eight(words: &mut [u8], prev: &[u8], at: usize, ahead: u32)
    requires within { at + 32 ≤ length words.old }
    requires size { length words.old ≤ length prev.now }
    requires aligned { at % 4 ≡ 0 }
    ensures eight { (i : ℕ) → at ≤ i → i < at + 32
        → slice_index words.new i ≡ strided_byte ahead words.old prev.now i }
    ensures others { (i : ℕ) → (i < at) ⊎ (at + 32 ≤ i) → slice_index words.new i ≡ slice_index words.old i }
{
    let next = strided_eight(eight_at(words, at), eight_at(prev, at), ahead);
    put_eight(words, at, next);
}

// The eight words from a place on.
#[inline]
fn eight_at(bytes: &[u8], at: usize) -> u32x8
    requires { at + 32 ≤ length bytes.now }
    ensures { (j : ℕ) → j < 8 → slice_index result j ≡ word_at bytes.now (at + 4 * j) }
{
    u32x8::from_le_bytes(u8x32::from_slice(&bytes[at..]))
}

// Eight words strided by eight others.
#[inline]
fn strided_eight(last: u32x8, prev: u32x8, ahead: u32) -> u32x8
    ensures { (j : ℕ) → j < 8
        → slice_index result j ≡ strided_word ahead (slice_index last j) (slice_index prev j) }
{
    last + u32x8::splat(ahead) * (last - prev)
}

// Puts eight words from a place on.
#[inline]
fn put_eight(bytes: &mut [u8], at: usize, eight: u32x8)
    requires { at + 32 ≤ length bytes.old }
    ensures eight { (i : ℕ) → i < 32
        → slice_index bytes.new (at + i) ≡ slice_index (bytes_of 4 (slice_index eight (i / 4))) (i % 4) }
    ensures others { (i : ℕ) → (i < at) ⊎ (at + 32 ≤ i) → slice_index bytes.new i ≡ slice_index bytes.old i }
{
    eight.to_le_bytes().copy_to_slice(&mut bytes[at..]);
}
