ghost use Rattle.std.specs.Prelude.{◌≡◌, ℕ, ◌+◌, ◌<◌, ◌≤◌, ◌-◌, nat_lt, true, false, List, if◌then◌else◌, All, length, map, sum_by, slice_index_or, None, IfSome, IfNone};
ghost use Rattle.std.specs.Arc.{arc_value};
ghost use Rattle.asc_traj.specs.Content.{longest, matches};
ghost use Rattle.asc_shard.specs.Content.{IsFound};
ghost use Rattle.asc_shard.specs.Groups.{AreAsked, Asked, IsFew};
ghost use Rattle.asc_shard.specs.Fingerprints.{may_match, print_in};
ghost use Rattle.asc_shard.specs.Inside.{AreProducts, IsBest, IsFrom, IsHead, IsIndexed, IsLast, IsMost, IsTailRising, by_group, key_of, no_entry, positions_of, raised, sorted_in};

use crate::heads::Head;
use crate::index::Index;
use crate::key::{print_in, print_of_state, print_of_words, products_of};
use crate::order::{Unlike, compare_groups, compare_with, first_unlike, has_reads, lacks};
use crate::prints::range_of;
use asc_outside::Steps;
use asc_shape::State;
use asc_traj::Entry;
use std::cmp::Ordering;
use std::sync::Arc;
use std::sync::ledger::Ledger;

/// What counts probes.
pub trait Probes {
    /// The count.
    ghost count: { Self → ℕ };

    /// A count after one probe more.
    ghost more: { ℕ → ℕ };

    /// One probe more.
    fn tick(&mut self)
        ensures { count self.new ≡ more (count self.old) };
}

impl<L: Ledger> Probes for Steps<L> {
    ghost count = { λ steps. steps };

    ghost more = { λ count. count + 1 };

    fn tick(&mut self) {
        Steps::tick(self);
    }
}

/// It counts nothing.
#[derive(Clone, Copy, Debug)]
pub struct Uncounted;

impl Probes for Uncounted {
    ghost count = { λ _. 0 };

    ghost more = { λ count. count };

    fn tick(&mut self) {}
}

/// The longest match so far.
#[derive(Clone, Copy, Debug)]
pub struct Best {
    // Its position among the entries.
    pub position: Option<usize>,
    // Its steps, 0 where there is none.
    pub steps: u64,
}

/// The position of the longest of these entries, of at most `left` steps, that matches a state.
///
/// Keys with one mask stand together in the index. For each mask the state has one fingerprint, and the entries that
/// have it stand together again, group by group.
pub fn search<P: Probes>(
    entries: &[Arc<Entry>],
    index: &Index,
    state: &State,
    left: u64,
    probes: &mut P,
) -> Option<usize>
    requires index { IsIndexed (map arc_value entries.now) index.now }
    ensures none { IfNone result (longest (map arc_value entries.now) state.now left ≡ None) }
    ensures some { IfSome result (IsFound (map arc_value entries.now) state.now left) }
    ensures probes { (asked : List Asked) × AreAsked (map arc_value entries.now) state.now asked
        × (P.count probes.new ≡ raised P.more (sum_by (λ a. a.probes) asked) (P.count probes.old)) }
{
    // With many lists what the words count is looked up.
    if index.heads.len() < 4 {
        search_lists(entries, index, state, None, left, probes)
    } else {
        search_lists(
            entries,
            index,
            state,
            Some(&products_of(state)),
            left,
            probes,
        )
    }
}

/// The same, with what each of the first words of the state counts, where that is known.
#[inline(never)]
fn search_lists<P: Probes>(
    entries: &[Arc<Entry>],
    index: &Index,
    state: &State,
    products: Option<&[u64; 32]>,
    left: u64,
    probes: &mut P,
) -> Option<usize>
    requires index { IsIndexed (map arc_value entries.now) index.now }
    requires products { IfSome products (λ p. AreProducts state.now p.now) }
    ensures none { IfNone result (longest (map arc_value entries.now) state.now left ≡ None) }
    ensures some { IfSome result (IsFound (map arc_value entries.now) state.now left) }
    ensures probes { (asked : List Asked) × AreAsked (map arc_value entries.now) state.now asked
        × (P.count probes.new ≡ raised P.more (sum_by (λ a. a.probes) asked) (P.count probes.old)) }
{
    let mut best = Best {
        position: None,
        steps: 0,
    };
    let mut from = 0;
    for head in &index.heads {
        let next = from + head.count;
        let print = print_for(head, state, products, entries, index, from);
        let (low, high) = range_of(index, from, next, print);
        best = search_some(
            entries, index, low, high, head.len, state, left, best, probes,
        );
        from = next;
    }
    best.position
}

/// The fingerprint that a state has for a head, whose first entry is at a place.
#[inline]
fn print_for(
    head: &Head,
    state: &State,
    products: Option<&[u64; 32]>,
    entries: &[Arc<Entry>],
    index: &Index,
    from: usize,
) -> u64
    requires index { IsIndexed (map arc_value entries.now) index.now }
    requires within { from < length (positions_of index.now) }
    requires head { IsHead head.now }
    requires entry { (key_of (slice_index_or (sorted_in (map arc_value entries.now) index.now) from no_entry)).mask
        ≡ head.now.mask }
    requires products { IfSome products (λ p. AreProducts state.now p.now) }
    ensures { result ≡ print_in state.now (slice_index_or (sorted_in (map arc_value entries.now) index.now) from no_entry) }
{
    if head.len == 0 {
        return print_in(state, index.entry(entries, from));
    }
    // That it is a state.
    let _ = state.shape();
    let words = &head.words[..head.len];
    match products {
        Some(products) => print_of_words(products, words),
        None => print_of_state(state, words),
    }
}

/// The longest match so far, after the entries of one key, which the state has, if there are any.
#[inline]
fn search_some<P: Probes>(
    entries: &[Arc<Entry>],
    index: &Index,
    low: usize,
    high: usize,
    after: usize,
    state: &State,
    left: u64,
    best: Best,
    probes: &mut P,
) -> Best
    requires index { IsIndexed (map arc_value entries.now) index.now }
    requires range { (low ≤ high) × (high ≤ length (positions_of index.now)) }
    requires keys { (i j : ℕ) → low ≤ i → i < high → low ≤ j → j < high
        → key_of (slice_index_or (sorted_in (map arc_value entries.now) index.now) i no_entry)
        ≡ key_of (slice_index_or (sorted_in (map arc_value entries.now) index.now) j no_entry) }
    requires prints { (i : ℕ) → low ≤ i → i < high
        → may_match state.now (slice_index_or (sorted_in (map arc_value entries.now) index.now) i no_entry) ≡ true }
    requires best { IsBest (map arc_value entries.now) state.now left best.position best.steps }
    ensures best { IsBest (map arc_value entries.now) state.now left result.position result.steps }
    ensures most { IsMost (sorted_in (map arc_value entries.now) index.now) state.now left low high result.steps }
    ensures rises { best.steps ≤ result.steps }
    ensures probes { (asked : List Asked) × AreAsked (map arc_value entries.now) state.now asked
        × All (λ a. IsFrom (sorted_in (map arc_value entries.now) index.now) low high a.entry) asked
        × (P.count probes.new ≡ raised P.more (sum_by (λ a. a.probes) asked) (P.count probes.old)) }
{
    if low == high {
        return best;
    }
    if high - low <= 4 {
        return search_few(entries, index, low, high, after, state, left, best, probes);
    }
    search_range(entries, index, low, high, state, left, best, probes)
}

/// The same of at most four entries. A group of so few may be compared one by one.
#[inline(always)]
fn search_few<P: Probes>(
    entries: &[Arc<Entry>],
    index: &Index,
    low: usize,
    high: usize,
    after: usize,
    state: &State,
    left: u64,
    best: Best,
    probes: &mut P,
) -> Best
    requires index { IsIndexed (map arc_value entries.now) index.now }
    requires range { (low ≤ high) × (high ≤ length (positions_of index.now)) }
    requires few { high - low ≤ 4 }
    requires keys { (i j : ℕ) → low ≤ i → i < high → low ≤ j → j < high
        → key_of (slice_index_or (sorted_in (map arc_value entries.now) index.now) i no_entry)
        ≡ key_of (slice_index_or (sorted_in (map arc_value entries.now) index.now) j no_entry) }
    requires prints { (i : ℕ) → low ≤ i → i < high
        → may_match state.now (slice_index_or (sorted_in (map arc_value entries.now) index.now) i no_entry) ≡ true }
    requires best { IsBest (map arc_value entries.now) state.now left best.position best.steps }
    ensures best { IsBest (map arc_value entries.now) state.now left result.position result.steps }
    ensures most { IsMost (sorted_in (map arc_value entries.now) index.now) state.now left low high result.steps }
    ensures rises { best.steps ≤ result.steps }
    ensures probes { (asked : List Asked) × AreAsked (map arc_value entries.now) state.now asked
        × All (λ a. IsFrom (sorted_in (map arc_value entries.now) index.now) low high a.entry) asked
        × (P.count probes.new ≡ raised P.more (sum_by (λ a. a.probes) asked) (P.count probes.old)) }
{
    let mut now = best;
    for at in low..high {
        probes.tick();
        now = longer_with(entries, index, at, after, state, left, now);
    }
    now
}

/// The longest match so far, after one entry. What it reads from a part on is compared first.
#[inline]
fn longer_with(
    entries: &[Arc<Entry>],
    index: &Index,
    at: usize,
    after: usize,
    state: &State,
    left: u64,
    best: Best,
) -> Best
    requires index { IsIndexed (map arc_value entries.now) index.now }
    requires within { at < length (positions_of index.now) }
    requires best { IsBest (map arc_value entries.now) state.now left best.position best.steps }
    ensures best { IsBest (map arc_value entries.now) state.now left result.position result.steps }
    ensures most { IsMost (sorted_in (map arc_value entries.now) index.now) state.now left at (at + 1) result.steps }
    ensures rises { best.steps ≤ result.steps }
{
    let entry = index.entry(entries, at);
    if entry.shape() == state.shape() && entry.steps() <= left && has_reads(entry, state, after) {
        return longer_of(best, entries, index.position(at));
    }
    best
}

/// The longest match so far, after the entries of one key, which the state has, group by group.
fn search_range<P: Probes>(
    entries: &[Arc<Entry>],
    index: &Index,
    low: usize,
    high: usize,
    state: &State,
    left: u64,
    best: Best,
    probes: &mut P,
) -> Best
    requires index { IsIndexed (map arc_value entries.now) index.now }
    requires range { (low ≤ high) × (high ≤ length (positions_of index.now)) }
    requires keys { (i j : ℕ) → low ≤ i → i < high → low ≤ j → j < high
        → key_of (slice_index_or (sorted_in (map arc_value entries.now) index.now) i no_entry)
        ≡ key_of (slice_index_or (sorted_in (map arc_value entries.now) index.now) j no_entry) }
    requires prints { (i : ℕ) → low ≤ i → i < high
        → may_match state.now (slice_index_or (sorted_in (map arc_value entries.now) index.now) i no_entry) ≡ true }
    requires best { IsBest (map arc_value entries.now) state.now left best.position best.steps }
    ensures best { IsBest (map arc_value entries.now) state.now left result.position result.steps }
    ensures most { IsMost (sorted_in (map arc_value entries.now) index.now) state.now left low high result.steps }
    ensures rises { best.steps ≤ result.steps }
    ensures probes { (asked : List Asked) × AreAsked (map arc_value entries.now) state.now asked
        × All (λ a. IsFrom (sorted_in (map arc_value entries.now) index.now) low high a.entry) asked
        × (P.count probes.new ≡ raised P.more (sum_by (λ a. a.probes) asked) (P.count probes.old)) }
{
    let mut now = best;
    let none = Unlike { at: 0, number: 0 };
    let mut from = next_like(entries, index, low, high, none, state);
    while from < high {
        let end = group_end(entries, index, from, high);
        now = search_group(entries, index, from, end, state, left, now, probes);
        // Where this one differs, the next ones mostly do too.
        let unlike = first_unlike(index.entry(entries, from), state);
        from = next_like(entries, index, end, high, unlike, state);
    }
    now
}

/// The longest match so far, after the entries of one key and one group.
fn search_group<P: Probes>(
    entries: &[Arc<Entry>],
    index: &Index,
    from: usize,
    end: usize,
    state: &State,
    left: u64,
    best: Best,
    probes: &mut P,
) -> Best
    requires index { IsIndexed (map arc_value entries.now) index.now }
    requires range { (from < end) × (end ≤ length (positions_of index.now)) }
    requires keys { (i j : ℕ) → from ≤ i → i < end → from ≤ j → j < end
        → key_of (slice_index_or (sorted_in (map arc_value entries.now) index.now) i no_entry)
        ≡ key_of (slice_index_or (sorted_in (map arc_value entries.now) index.now) j no_entry) }
    requires group { (i : ℕ) → from ≤ i → i < end
        → by_group (slice_index_or (sorted_in (map arc_value entries.now) index.now) from no_entry)
        (slice_index_or (sorted_in (map arc_value entries.now) index.now) i no_entry) ≡ Ordering.Equal }
    requires best { IsBest (map arc_value entries.now) state.now left best.position best.steps }
    ensures best { IsBest (map arc_value entries.now) state.now left result.position result.steps }
    ensures most { IsMost (sorted_in (map arc_value entries.now) index.now) state.now left from end result.steps }
    ensures rises { best.steps ≤ result.steps }
    ensures probes { (times : ℕ) × IsFew times (end - from)
        × (P.count probes.new ≡ raised P.more times (P.count probes.old)) }
{
    let first: &Entry = index.entry(entries, from);
    if first.shape() != state.shape() {
        return best;
    }
    match last_match(entries, index, from, end, state, left, probes) {
        Some(i) => longer_of(best, entries, index.position(i)),
        None => best,
    }
}

/// The first place from one on to search at, among the entries of one key. Entries are passed over of which the state has not
/// the part where another differed. Where none did, and all are of one group, none is.
fn next_like(
    entries: &[Arc<Entry>],
    index: &Index,
    from: usize,
    high: usize,
    unlike: Unlike,
    state: &State,
) -> usize
    requires index { IsIndexed (map arc_value entries.now) index.now }
    requires range { (from ≤ high) × (high ≤ length (positions_of index.now)) }
    ensures range { (from ≤ result) × (result ≤ high) }
    ensures passed { (i : ℕ) → from ≤ i → i < result
        → matches state.now (slice_index_or (sorted_in (map arc_value entries.now) index.now) i no_entry) ≡ false }
{
    if unlike.at == 0 {
        return from;
    }
    let mut at = from;
    while at < high && lacks(state, index.entry(entries, at), unlike) {
        at += 1;
    }
    at
}

/// The longer of what was found and the entry at a position.
fn longer_of(best: Best, entries: &[Arc<Entry>], position: usize) -> Best
    requires { position < length entries.now }
    ensures { result ≡ (if nat_lt best.steps (slice_index_or (map arc_value entries.now) position no_entry).steps
        then record { position = Some position; steps = (slice_index_or (map arc_value entries.now) position no_entry).steps }
        else best) }
{
    let steps = entries[position].steps();
    if best.steps < steps {
        return Best {
            position: Some(position),
            steps,
        };
    }
    best
}

/// Where the group ends of which the first entry is at `from`, among those of one key.
fn group_end(entries: &[Arc<Entry>], index: &Index, from: usize, high: usize) -> usize
    requires index { IsIndexed (map arc_value entries.now) index.now }
    requires some { from < high }
    requires range { high ≤ length (positions_of index.now) }
    requires keys { (i j : ℕ) → from ≤ i → i < high → from ≤ j → j < high
        → key_of (slice_index_or (sorted_in (map arc_value entries.now) index.now) i no_entry)
        ≡ key_of (slice_index_or (sorted_in (map arc_value entries.now) index.now) j no_entry) }
    ensures some { from < result }
    ensures range { result ≤ high }
    ensures same { (i : ℕ) → from ≤ i → i < result
        → by_group (slice_index_or (sorted_in (map arc_value entries.now) index.now) from no_entry)
        (slice_index_or (sorted_in (map arc_value entries.now) index.now) i no_entry) ≡ Ordering.Equal }
    ensures rest { (i : ℕ) → result ≤ i → i < high
        → by_group (slice_index_or (sorted_in (map arc_value entries.now) index.now) from no_entry)
        (slice_index_or (sorted_in (map arc_value entries.now) index.now) i no_entry) ≡ Ordering.Less }
{
    if from + 1 == high {
        return high;
    }
    let first: &Entry = index.entry(entries, from);
    // Mostly it is alone, or all are of its group.
    if compare_groups(first, index.entry(entries, from + 1)).is_ne() {
        return from + 1;
    }
    if compare_groups(first, index.entry(entries, high - 1)).is_eq() {
        return high;
    }
    let mut low = from + 1;
    let mut end = high - 1;
    while low < end {
        let middle = low + (end - low) / 2;
        if compare_groups(first, index.entry(entries, middle)).is_eq() {
            low = middle + 1;
        } else {
            end = middle;
        }
    }
    low
}

/// The last entry of a group that matches a state and has at most `left` steps.
fn last_match<P: Probes>(
    entries: &[Arc<Entry>],
    index: &Index,
    from: usize,
    end: usize,
    state: &State,
    left: u64,
    probes: &mut P,
) -> Option<usize>
    requires index { IsIndexed (map arc_value entries.now) index.now }
    requires some { from < end }
    requires range { end ≤ length (positions_of index.now) }
    requires group { IsTailRising (sorted_in (map arc_value entries.now) index.now) state.now from end }
    ensures last { IsLast (sorted_in (map arc_value entries.now) index.now) state.now left from end result }
    ensures probes { (times : ℕ) × IsFew times (end - from)
        × (P.count probes.new ≡ raised P.more times (P.count probes.old)) }
{
    let mut best = None;
    let mut low = from;
    let mut high = end;
    while low < high {
        let middle = low + (high - low) / 2;
        let entry: &Entry = index.entry(entries, middle);
        probes.tick();
        match compare_with(entry, state) {
            Ordering::Less => low = middle + 1,
            Ordering::Equal if entry.steps() <= left => {
                best = Some(middle);
                low = middle + 1;
            }
            _ => high = middle,
        }
    }
    best
}
