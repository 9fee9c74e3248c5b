ghost use Rattle.std.specs.Prelude.{◌≡◌, ℕ, ◌+◌, ◌^◌, ◌<◌, ◌≤◌, ◌++◌, ◌∷◌, [], false, length, map, vec_len, slice_index_or, vec_capacity};
ghost use Rattle.std.specs.Arc.{arc_value};
ghost use Rattle.std.specs.List.{list_any, remove};
ghost use Rattle.std.specs.Ordering.{is_lt};
ghost use Rattle.asc_shard.specs.Content.{is_same_entry};
ghost use Rattle.asc_shard.specs.Inside.{IsIndexed, IsPlace, by_all, key_of, no_entry, positions_of, sorted_in};

use crate::heads::{Beginning, Head, beginning_of, lower, raise};
use crate::key::{Key, key_of};
use crate::order::compare_alike;
#[cfg(test)]
use crate::order::compare_groups;
use crate::prints::range_of;
use asc_traj::Entry;
use std::cmp::Ordering;
use std::sync::Arc;

/// The order of the entries of a shard: first by their fingerprints.
#[derive(Drop)]
pub struct Index {
    // The number of the oldest entry. Numbers go on by one from entry to entry, and round at 2^32.
    pub oldest: u32,
    // The numbers of the entries, in their order.
    pub numbers: Vec<u32>,
    // Their fingerprints.
    pub prints: Vec<u64>,
    // The lists of their first places.
    pub heads: Vec<Head>,
}

/// Where an entry stands in an index, or would.
#[derive(Clone, Copy, Debug)]
pub struct Place {
    pub beginning: Beginning,
    // How many entries stand before it.
    pub at: usize,
    // Whether one that is the same stands there.
    pub same: bool,
}

impl Index {
    /// The entry at a place.
    #[inline]
    pub fn entry<'a>(&self, entries: &'a [Arc<Entry>], at: usize) -> &'a Entry
        requires index { IsIndexed (map arc_value entries.now) self.now }
        requires within { at < length (positions_of self.now) }
        ensures { result.now ≡ slice_index_or (sorted_in (map arc_value entries.now) self.now) at no_entry }
    {
        &entries[self.position(at)]
    }

    /// Which entry stands at a place, the oldest first.
    #[inline]
    pub fn position(&self, at: usize) -> usize
        requires within { at < length (positions_of self.now) }
        ensures { result ≡ slice_index_or (positions_of self.now) at 0 }
    {
        self.numbers[at].wrapping_sub(self.oldest) as usize
    }

    /// How often an entry stands first or behind one of another group.
    #[cfg(test)]
    pub fn groups(&self, entries: &[Arc<Entry>]) -> usize
        requires index { IsIndexed (map arc_value entries.now) self.now }
    {
        let mut groups: usize = 0;
        for at in 0..self.numbers.len() {
            if at == 0
                || compare_groups(self.entry(entries, at - 1), self.entry(entries, at)).is_ne()
            {
                groups = groups.saturating_add(1);
            }
        }
        groups
    }
}

/// Where an entry stands in an index, or would.
pub fn place_of(entries: &[Arc<Entry>], index: &Index, entry: &Entry, key: Key) -> Place
    requires index { IsIndexed (map arc_value entries.now) index.now }
    requires key { key ≡ key_of entry.now }
    ensures place { IsPlace (map arc_value entries.now) index.now entry.now result }
    ensures same { result.same ≡ list_any (is_same_entry entry.now) (map arc_value entries.now) }
{
    let beginning = beginning_of(&index.heads, key.mask);
    let (low, high) = range_of(index, beginning.from, beginning.next, key.print);
    let at = place_among(entries, index, low, high, entry);
    let same = at < high && compare_alike(index.entry(entries, at), entry).is_eq();
    Place {
        beginning,
        at,
        same,
    }
}

/// The same among entries of its key.
fn place_among(
    entries: &[Arc<Entry>],
    index: &Index,
    from: usize,
    end: usize,
    entry: &Entry,
) -> usize
    requires index { IsIndexed (map arc_value entries.now) index.now }
    requires range { (from ≤ end) × (end ≤ length (positions_of index.now)) }
    requires keys { (i : ℕ) → from ≤ i → i < end
        → key_of (slice_index_or (sorted_in (map arc_value entries.now) index.now) i no_entry) ≡ key_of entry.now }
    ensures range { (from ≤ result) × (result ≤ end) }
    ensures before { (i : ℕ) → from ≤ i → i < result
        → by_all (slice_index_or (sorted_in (map arc_value entries.now) index.now) i no_entry) entry.now
        ≡ Ordering.Less }
    ensures rest { (i : ℕ) → result ≤ i → i < end
        → is_lt (by_all (slice_index_or (sorted_in (map arc_value entries.now) index.now) i no_entry) entry.now)
        ≡ false }
{
    let mut low = from;
    let mut high = end;
    while low < high {
        let middle = low + (high - low) / 2;
        if compare_alike(index.entry(entries, middle), entry).is_lt() {
            low = middle + 1;
        } else {
            high = middle;
        }
    }
    low
}

/// Puts an entry behind the others, and at its place into their index.
pub fn add(
    entries: &mut Vec<Arc<Entry>>,
    index: &mut Index,
    entry: Arc<Entry>,
    key: Key,
    place: Place,
)
    requires room { vec_len entries.old < vec_capacity entries.old }
    requires few { vec_len entries.old + 1 < 2 ^ 32 }
    requires numbers_room { vec_len entries.old < vec_capacity index.old.numbers }
    requires prints_room { vec_len entries.old < vec_capacity index.old.prints }
    requires heads_room { vec_len entries.old < vec_capacity index.old.heads }
    requires index { IsIndexed (map arc_value entries.old.items) index.old }
    requires key { key ≡ key_of (arc_value entry) }
    requires place { IsPlace (map arc_value entries.old.items) index.old (arc_value entry) place }
    requires apart { list_any (is_same_entry (arc_value entry)) (map arc_value entries.old.items) ≡ false }
    ensures entries { entries.new.items ≡ entries.old.items ++ entry ∷ [] }
    ensures index { IsIndexed (map arc_value entries.new.items) index.new }
    ensures capacity { vec_capacity entries.new ≡ vec_capacity entries.old }
    ensures rooms { (vec_capacity index.new.numbers ≡ vec_capacity index.old.numbers)
        × (vec_capacity index.new.prints ≡ vec_capacity index.old.prints)
        × (vec_capacity index.new.heads ≡ vec_capacity index.old.heads) }
{
    // That it holds everywhere.
    entry.truth();
    let number = index.oldest.wrapping_add(entries.len() as u32);
    // There is room for each.
    let _ = index.numbers.insert(place.at, number);
    let _ = index.prints.insert(place.at, key.print);
    raise(&mut index.heads, place.beginning, &entry, key.mask);
    entries.push_reserved(entry);
}

/// Takes the oldest entry out of the others, and out of their index.
pub fn forget_oldest(entries: &mut Vec<Arc<Entry>>, index: &mut Index)
    requires some { 0 < length entries.old.items }
    requires index { IsIndexed (map arc_value entries.old.items) index.old }
    ensures entries { entries.new.items ≡ remove entries.old.items 0 }
    ensures index { IsIndexed (map arc_value entries.new.items) index.new }
    ensures capacity { vec_capacity entries.new ≡ vec_capacity entries.old }
    ensures rooms { (vec_capacity index.new.numbers ≡ vec_capacity index.old.numbers)
        × (vec_capacity index.new.prints ≡ vec_capacity index.old.prints)
        × (vec_capacity index.new.heads ≡ vec_capacity index.old.heads) }
{
    let key = key_of(&entries[0]);
    let beginning = beginning_of(&index.heads, key.mask);
    let (low, high) = range_of(index, beginning.from, beginning.next, key.print);
    let at = place_of_oldest(index, low, high);
    index.numbers.remove(at);
    index.prints.remove(at);
    lower(&mut index.heads, beginning.head);
    index.oldest = index.oldest.wrapping_add(1);
    drop(entries.remove(0));
}

/// Where the oldest entry stands, of places from one to another.
fn place_of_oldest(index: &Index, low: usize, high: usize) -> usize
    requires range { high ≤ length (positions_of index.now) }
    requires there { (k : ℕ) × (low ≤ k) × (k < high) × (slice_index_or (positions_of index.now) k 0 ≡ 0) }
    ensures range { (low ≤ result) × (result < high) }
    ensures oldest { slice_index_or (positions_of index.now) result 0 ≡ 0 }
{
    let mut at = low;
    while at + 1 < high && index.position(at) != 0 {
        at += 1;
    }
    at
}
