// Pages of a state's bytes, and words that are strided.
ghost use Rattle.std.specs.Prelude.{◌≡◌, ◌≢◌, ◌+◌, ◌*◌, ◌/◌, ◌^◌, ◌%◌, ◌<◌, ◌≤◌, ℕ, List, min, length, slice_index};
ghost use Rattle.asc_model.specs.Number.{AreBytes};
ghost use Rattle.asc_shape.specs.Stride.{strided_byte, strided_word};

use crate::lanes::{EIGHT, stride_eight};
use asc_pages::{PAGE, Pages, word_in};

// A page of zeros.
static BLANK: [u8; PAGE] = [0; PAGE];

/// The first place of page p, and the place behind its last one.
#[inline]
pub(crate) fn ends(p: usize, len: usize) -> (usize, usize)
    requires len { len < 2 ^ 32 }
    requires page { p < len / 1024 + 1 }
    ensures from { result.0 ≡ 1024 * p }
    ensures to { result.1 ≡ min (1024 * p + 1024) len }
{
    let from = p * PAGE;
    (from, len.min(from + PAGE))
}

/// Writes a page over page p. One that has nothing is written as zeros.
pub(crate) fn put_page(bytes: &mut [u8], p: usize, page: &[u8])
    requires len { length bytes.old < 2 ^ 32 }
    requires page { p < length bytes.old / 1024 + 1 }
    requires size { 0 < length page.now → length page.now ≡ 1024 }
    ensures page { (i : ℕ) → i / 1024 ≡ p → i < length bytes.old → slice_index bytes.new i ≡ slice_index page.now (i % 1024) }
    ensures others { (i : ℕ) → i / 1024 ≢ p → slice_index bytes.new i ≡ slice_index bytes.old i }
{
    let (from, to) = ends(p, bytes.len());
    if page.is_empty() {
        bytes[from..to].fill(0);
    } else {
        bytes[from..to].copy_from_slice(&page[0..to - from]);
    }
}

/// Writes pages over all bytes.
pub(crate) fn put_pages(bytes: &mut [u8], pages: &Pages)
    requires { length bytes.old < 2 ^ 32 }
    ensures size { length bytes.new ≡ length bytes.old }
    ensures each { (i : ℕ) → i < length bytes.old → slice_index bytes.new i ≡ slice_index pages.now i }
{
    for p in 0..bytes.len() / PAGE + 1 {
        put_page(bytes, p, pages.page(p));
    }
}

/// Strides all words by those of pages.
pub(crate) fn stride_pages(bytes: &mut [u8], pages: &Pages, ahead: u32)
    requires most { length bytes.old < 2 ^ 32 }
    requires whole { length bytes.old % 4 ≡ 0 }
    ensures size { length bytes.new ≡ length bytes.old }
    ensures each { (i : ℕ) → i < length bytes.old
        → slice_index bytes.new i ≡ strided_byte ahead bytes.old pages.now i }
{
    for p in 0..bytes.len() / PAGE + 1 {
        stride_page(bytes, p, pages.page(p), ahead);
    }
}

// Strides the words of page p by those of another page.
fn stride_page(bytes: &mut [u8], p: usize, prev: &[u8], ahead: u32)
    requires len { length bytes.old < 2 ^ 32 }
    requires whole { length bytes.old % 4 ≡ 0 }
    requires page { p < length bytes.old / 1024 + 1 }
    requires size { 0 < length prev.now → length prev.now ≡ 1024 }
    ensures page { (target : List ℕ)
        → ((i : ℕ) → i / 1024 ≡ p → slice_index target i ≡ slice_index prev.now (i % 1024))
        → (i : ℕ) → i / 1024 ≡ p → i < length bytes.old
        → slice_index bytes.new i ≡ strided_byte ahead bytes.old target i }
    ensures others { (i : ℕ) → i / 1024 ≢ p → slice_index bytes.new i ≡ slice_index bytes.old i }
{
    let (from, to) = ends(p, bytes.len());
    stride(&mut bytes[from..to], whole_page(prev), ahead);
}

// The bytes of a page. One that has nothing is blank.
#[inline]
fn whole_page(page: &[u8]) -> &[u8]
    requires { 0 < length page.now → length page.now ≡ 1024 }
    ensures same { (j : ℕ) → slice_index result.now j ≡ slice_index page.now j }
    ensures size { length result.now ≡ 1024 }
{
    if page.is_empty() { &BLANK } else { page }
}

/// Strides words by those of another list.
pub(crate) fn stride(words: &mut [u8], prev: &[u8], ahead: u32)
    requires size { length words.old ≤ length prev.now }
    requires whole { length words.old % 4 ≡ 0 }
    requires most { length words.old ≤ 1024 }
    ensures { (i : ℕ) → i < length words.old → slice_index words.new i ≡ strided_byte ahead words.old prev.now i }
{
    stride_by_eights(words, prev, ahead);
    stride_rest(words, prev, ahead);
}

// Strides words by those of another list, eight at a time, and leaves those that make no eight.
fn stride_by_eights(words: &mut [u8], prev: &[u8], ahead: u32)
    requires size { length words.old ≤ length prev.now }
    requires most { length words.old ≤ 1024 }
    ensures done { (i : ℕ) → i < length words.old / 32 * 32
        → slice_index words.new i ≡ strided_byte ahead words.old prev.now i }
    ensures left { (i : ℕ) → length words.old / 32 * 32 ≤ i → slice_index words.new i ≡ slice_index words.old i }
{
    for k in 0..words.len() / EIGHT {
        stride_eight(words, prev, EIGHT * k, ahead);
    }
}

// Strides the words that make no eight.
fn stride_rest(words: &mut [u8], prev: &[u8], ahead: u32)
    requires size { length words.old ≤ length prev.now }
    requires whole { length words.old % 4 ≡ 0 }
    requires most { length words.old ≤ 1024 }
    ensures done { (i : ℕ) → i < length words.old / 32 * 32 → slice_index words.new i ≡ slice_index words.old i }
    ensures rest { (i : ℕ) → length words.old / 32 * 32 ≤ i → i < length words.old
        → slice_index words.new i ≡ strided_byte ahead words.old prev.now i }
{
    for k in words.len() / EIGHT * 8..words.len() / 4 {
        let word = strided(word_in(words, 4 * k), word_in(prev, 4 * k), ahead);
        words[4 * k..4 * k + 4].copy_from_slice(&word.to_le_bytes());
    }
}

/// A word that is so many times the difference further on than the last one.
#[inline]
pub(crate) fn strided(last: u32, prev: u32, ahead: u32) -> u32
    ensures { result ≡ strided_word ahead last prev }
{
    last.wrapping_add(ahead.wrapping_mul(last.wrapping_sub(prev)))
}

/// The elements of a slice of bytes are bytes.
pub(crate) fn elements_are_bytes(_slice: &[u8])
    ensures { AreBytes _slice.now }
{}
