ghost use Rattle.std.specs.Prelude.{◌≡◌, ℕ, ◌<◌, ◌≤◌, length, slice_index_or};

use crate::index::Index;

/// Where a fingerprint begins and where it ends, from one place of an index to another between which they rise.
#[inline]
pub fn range_of(index: &Index, from: usize, next: usize, print: u64) -> (usize, usize)
    requires range { (from ≤ next) × (next ≤ length index.now.prints.items) }
    requires rise { (i j : ℕ) → from ≤ i → i ≤ j → j < next
        → slice_index_or index.now.prints.items i 0 ≤ slice_index_or index.now.prints.items j 0 }
    ensures range { (from ≤ result.0) × (result.0 ≤ result.1) × (result.1 ≤ next) }
    ensures before { (i : ℕ) → from ≤ i → i < result.0 → slice_index_or index.now.prints.items i 0 < print }
    ensures inside { (i : ℕ) → result.0 ≤ i → i < result.1 → slice_index_or index.now.prints.items i 0 ≡ print }
    ensures behind { (i : ℕ) → result.1 ≤ i → i < next → print < slice_index_or index.now.prints.items i 0 }
{
    if from == next {
        return (from, from);
    }
    let last = last_from(index, from, next, print);
    // Mostly there is none.
    if index.prints[last] != print {
        let low = if index.prints[last] < print {
            last + 1
        } else {
            last
        };
        return (low, low);
    }
    // And seldom more than one.
    if last == from || index.prints[last - 1] != print {
        return (last, last + 1);
    }
    (first_from(index, from, last, print), last + 1)
}

/// The last place from one to another of at most this fingerprint, or else the first.
#[inline]
fn last_from(index: &Index, from: usize, next: usize, print: u64) -> usize
    requires range { (from < next) × (next ≤ length index.now.prints.items) }
    requires rise { (i j : ℕ) → from ≤ i → i ≤ j → j < next
        → slice_index_or index.now.prints.items i 0 ≤ slice_index_or index.now.prints.items j 0 }
    ensures range { (from ≤ result) × (result < next) }
    ensures most { from < result → slice_index_or index.now.prints.items result 0 ≤ print }
    ensures behind { (i : ℕ) → result < i → i < next → print < slice_index_or index.now.prints.items i 0 }
{
    let mut last = from;
    let mut count = next - from;
    while count > 1 {
        let half = count / 2;
        if index.prints[last + half] <= print {
            last += half;
        }
        count -= half;
    }
    last
}

/// The first place from one to another of at least this fingerprint.
fn first_from(index: &Index, from: usize, next: usize, print: u64) -> usize
    requires range { (from ≤ next) × (next ≤ length index.now.prints.items) }
    requires rise { (i j : ℕ) → from ≤ i → i ≤ j → j < next
        → slice_index_or index.now.prints.items i 0 ≤ slice_index_or index.now.prints.items j 0 }
    ensures range { (from ≤ result) × (result ≤ next) }
    ensures before { (i : ℕ) → from ≤ i → i < result → slice_index_or index.now.prints.items i 0 < print }
    ensures rest { (i : ℕ) → result ≤ i → i < next → print ≤ slice_index_or index.now.prints.items i 0 }
{
    let mut low = from;
    let mut high = next;
    while low < high {
        let middle = low + (high - low) / 2;
        if index.prints[middle] < print {
            low = middle + 1;
        } else {
            high = middle;
        }
    }
    low
}
