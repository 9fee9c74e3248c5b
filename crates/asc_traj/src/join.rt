ghost use Rattle.std.specs.Prelude.{◌≡◌, ℕ, ◌+◌, ◌/◌, ◌%◌, ◌^◌, ◌<◌, ◌≤◌, IfOk, None, length, if◌then◌else◌};
ghost use Rattle.std.specs.Option.{is_some, option_or};
ghost use Rattle.asc_model.specs.Join.{can_join, cell_count, reads_agree};
ghost use Rattle.asc_traj.specs.Parts.{all_cells};
ghost use Rattle.asc_traj.specs.Joining.{HasHalves, HasTaken, Rises, byte_of, first_of, meets_all, next_of};

use crate::Entry;
use crate::entry::Halves;
use crate::part::{Part, kept, push};
use asc_model::{MOST_ENTRY_STEPS, MOST_PLACES};
use std::alloc::{AllocError, Global};

/// One past the greatest number of a word.
const PAST: u32 = 1 << 28;

/// Some of the four bytes of a word.
#[derive(Clone, Copy)]
struct WordBytes {
    /// A bit for each of them, the lowest bit for the first.
    mask: u32,
    /// All four as a number, the first one lowest, of which the others do not count.
    word: u32,
}

/// Whether the second of two entries may follow the first. Where it may not, mostly few words are compared: the first
/// ones are those of the pc and of registers.
pub(crate) fn can_join(a: &Entry, b: &Entry) -> bool
    ensures { result ≡ can_join a.now b.now }
{
    let steps = a.steps().saturating_add(b.steps());
    if a.shape() != b.shape() || steps > MOST_ENTRY_STEPS || !reads_agree(a, b) {
        return false;
    }
    cell_count(a) + cell_count(b) <= MOST_PLACES
}

/// Whether the second of two entries reads each byte as it is known after the first.
fn reads_agree(a: &Entry, b: &Entry) -> bool
    ensures { result ≡ reads_agree a.now b.now }
{
    a.truth();
    b.truth();
    let mut a_reads = a.reads();
    let mut a_writes = a.writes();
    let mut b_reads = b.reads();
    let mut index = next_of(a_reads, a_writes, b_reads);
    while index < PAST {
        let (read, a_reads_left) = take_word(a_reads, index);
        let (written, a_writes_left) = take_word(a_writes, index);
        let (later, b_reads_left) = take_word(b_reads, index);
        if !meets_all(overlay(written, read), later) {
            return false;
        }
        a_reads = a_reads_left;
        a_writes = a_writes_left;
        b_reads = b_reads_left;
        index = next_of(a_reads, a_writes, b_reads);
    }
    true
}

/// How many cells an entry has.
fn cell_count(entry: &Entry) -> usize
    ensures exact { result ≡ cell_count entry.now }
    ensures few { result ≤ 2 ^ 32 }
{
    entry.truth();
    count(entry.reads()) + count(entry.writes())
}

/// How many cells parts have.
fn count(parts: &[Part]) -> usize
    requires { length (all_cells parts.now) ≤ 2 ^ 31 }
    ensures { result ≡ length (all_cells parts.now) }
{
    let mut cells = 0;
    for part in parts {
        cells += bit_count(part.at % 16);
    }
    cells
}

/// How many of the four bits of a mask are set.
fn bit_count(mask: u32) -> usize
    ensures { result ≡ mask % 2 + mask / 2 % 2 + mask / 4 % 2 + mask / 8 % 2 }
{
    (mask % 2 + mask / 2 % 2 + mask / 4 % 2 + mask / 8 % 2) as usize
}

/// What two entries of one shape read and leave, one after the other.
pub(crate) fn join_halves(alloc: Global, a: &Entry, b: &Entry) -> Result<Halves, AllocError>
    requires shape { a.now.shape ≡ b.now.shape }
    ensures { IfOk result (λ halves. HasHalves a.now b.now halves) }
{
    a.truth();
    b.truth();
    let mut a_reads = a.reads();
    let mut a_writes = a.writes();
    let mut b_reads = b.reads();
    let mut b_writes = b.writes();
    let mut joined = Halves {
        reads: Vec::with_capacity(alloc, a_reads.len() + b_reads.len())?,
        writes: Vec::with_capacity(alloc, a_writes.len() + b_writes.len())?,
    };
    let mut index = next_of(a_reads, a_writes, b_reads).min(first_of(b_writes));
    while index < PAST {
        let (read, a_reads_left) = take_word(a_reads, index);
        let (written, a_writes_left) = take_word(a_writes, index);
        let (later, b_reads_left) = take_word(b_reads, index);
        let (later_written, b_writes_left) = take_word(b_writes, index);
        let unread = without(later, overlay(written, read));
        let reads = overlay(read, unread);
        let writes = overlay(later_written, written);
        push(&mut joined.reads, index, reads.mask, reads.word);
        push(&mut joined.writes, index, writes.mask, writes.word);
        a_reads = a_reads_left;
        a_writes = a_writes_left;
        b_reads = b_reads_left;
        b_writes = b_writes_left;
        index = next_of(a_reads, a_writes, b_reads).min(first_of(b_writes));
    }
    Ok(joined)
}

/// The number of the first word of which one of three lists has a part; past all where they have none.
fn next_of(first: &[Part], second: &[Part], third: &[Part]) -> u32
    ensures { result ≡ next_of first.now second.now third.now }
{
    first_of(first).min(first_of(second)).min(first_of(third))
}

/// The number of the word of the first of parts; of no part it is past all.
fn first_of(parts: &[Part]) -> u32
    ensures { result ≡ first_of parts.now }
{
    match parts.first() {
        Some(part) => part.at / 16,
        None => PAST,
    }
}

/// The bytes that parts have of a word before which they have none, and the parts behind it.
fn take_word(parts: &[Part], index: u32) -> (WordBytes, &[Part])
    requires low { index < 2 ^ 28 }
    requires first { index ≤ first_of parts.now }
    requires rises { Rises parts.now }
    ensures { HasTaken index parts.now result.0 result.1.now }
{
    let mut rest = parts;
    let mut found = WordBytes { mask: 0, word: 0 };
    while let Some((part, behind)) = rest.split_first() {
        let is_same = part.at / 16 == index;
        if !is_same {
            return (found, rest);
        }
        let here = WordBytes {
            mask: part.at % 16,
            word: part.word,
        };
        found = overlay(found, here);
        rest = behind;
    }
    (found, rest)
}

/// The bytes of the first, and those of the second at places at which the first has none.
fn overlay(over: WordBytes, under: WordBytes) -> WordBytes
    requires over { over.mask < 16 }
    requires under { under.mask < 16 }
    ensures low { result.mask < 16 }
    ensures none { over.mask ≡ 0 → under.mask ≡ 0 → result.mask ≡ 0 }
    ensures bytes { (k : ℕ) → k < 4 → byte_of result k ≡ option_or (byte_of over k) (byte_of under k) }
{
    let rest = under.mask & !over.mask;
    WordBytes {
        mask: over.mask | under.mask,
        word: kept(over.mask, over.word) + kept(rest, under.word),
    }
}

/// The bytes of the first at places at which the second has none.
fn without(bytes: WordBytes, other: WordBytes) -> WordBytes
    requires low { bytes.mask < 16 }
    requires other { other.mask < 16 }
    ensures low { result.mask < 16 }
    ensures none { bytes.mask ≡ 0 → result.mask ≡ 0 }
    ensures bytes { (k : ℕ) → k < 4 → byte_of result k ≡ (if is_some (byte_of other k) then None else byte_of bytes k) }
{
    WordBytes {
        mask: bytes.mask & !other.mask,
        word: bytes.word,
    }
}

/// Whether each byte that both have is the same.
fn meets_all(known: WordBytes, read: WordBytes) -> bool
    requires known { known.mask < 16 }
    requires read { read.mask < 16 }
    ensures { result ≡ meets_all known read }
{
    let both = known.mask & read.mask;
    kept(both, known.word) == kept(both, read.word)
}
