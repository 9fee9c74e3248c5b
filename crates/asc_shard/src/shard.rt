ghost use Rattle.std.specs.Prelude.{◌≡◌, ◌+◌, ◌<◌, ◌≤◌, [], List, length, map, sum_by, slice_index_or, None, IfOk, IfSome, IfNone};
ghost use Rattle.std.specs.Arc.{arc_value};
ghost use Rattle.std.specs.List.{list_any};
ghost use Rattle.asc_traj.specs.Jump.{IsJump};
ghost use Rattle.asc_traj.specs.Content.{longest};
ghost use Rattle.asc_shard.specs.Groups.{AreAsked, Asked};
ghost use Rattle.asc_shard.specs.Content.{add, is_same_entry, inserted_in, IsContent, IsFound};
ghost use Rattle.asc_shard.specs.Inside.{raised};

use crate::find::{Probes, Uncounted, search};
use crate::index::{Index, add, forget_oldest, place_of};
use crate::key::key_of;
use asc_outside::{Memory, Steps};
use asc_shape::State;
use asc_traj::{Entry, jump_by};
use std::alloc::Global;
use std::marker::Model;
use std::sync::Arc;
use std::sync::ledger::Ledger;

/// What became of an entry.
#[derive(Clone, Copy, Debug, PartialEq, Eq)]
pub enum Inserted {
    /// It was held already, and nothing changed.
    Known,
    /// It was put last, and where the shard was full the oldest went.
    Stored,
}

/// The greatest capacity of a shard. The index of so many entries stays in the processor's second
/// cache while the walk looks up.
pub const MOST_CAPACITY: usize = 4096;

/// A bounded list of entries, the oldest first.
#[derive(Drop)]
pub struct Shard {
    entries: Vec<Arc<Entry>>,
    // Their index: where those with one fingerprint, and of them those of one group, stand together.
    index: Index,
    capacity: usize,
}

impl Model for Shard {
    ghost use Rattle.std.specs.Prelude.{◌≡◌, ◌≤◌, ◌<◌, map, length, vec_capacity};
    ghost use Rattle.std.specs.Arc.{arc_value};
    ghost use Rattle.asc_shard.specs.Content.{AreApart};
    ghost use Rattle.asc_shard.specs.Inside.{IsIndexed};
    ghost use Rattle.asc_shard.specs.Shard as model;
    ghost use Rattle.asc_shard.specs.declared.shard.TheConstants.{MOST_CAPACITY};

    ghost Value = { model.Shard };

    ghost view = { λ s. record { held = map arc_value s.entries.items; capacity = s.capacity } };

    ghost invariant = { λ s. (length s.entries.items ≤ s.capacity) × (0 < s.capacity) × (s.capacity ≤ MOST_CAPACITY)
        × (s.capacity < vec_capacity s.entries) × (s.capacity < vec_capacity s.index.numbers)
        × (s.capacity < vec_capacity s.index.prints) × (s.capacity < vec_capacity s.index.heads)
        × AreApart (map arc_value s.entries.items) × IsIndexed (map arc_value s.entries.items) s.index };
}

impl Shard {
    /// A shard that holds nothing, and may hold so many entries. All its room is reserved here.
    pub fn new(alloc: Global, capacity: usize) -> Result<Shard, Memory>
        requires { (0 < capacity) × (capacity ≤ MOST_CAPACITY) }
        ensures { IfOk result (λ s. s ≡ record { held = []; capacity = capacity }) }
    {
        // While one more is put, all that were held are there.
        let room = capacity + 1;
        let entries = Vec::with_capacity(alloc, room)?;
        let index = Index {
            oldest: 0,
            numbers: Vec::with_capacity(alloc, room)?,
            prints: Vec::with_capacity(alloc, room)?,
            heads: Vec::with_capacity(alloc, room)?,
        };
        Ok(Shard {
            entries,
            index,
            capacity,
        })
    }

    /// Whether an entry that is the same is held.
    pub fn holds(&self, entry: &Entry) -> bool
        ensures { result ≡ list_any (is_same_entry entry.now) self.now.held }
    {
        place_of(&self.entries, &self.index, entry, key_of(entry)).same
    }

    /// Puts an entry last, unless one that is the same is held. No allocator is handed in.
    pub fn insert(&mut self, entry: Arc<Entry>) -> Inserted
        ensures content { self.new.held ≡ add self.old.capacity self.old.held (arc_value entry) }
        ensures capacity { self.new.capacity ≡ self.old.capacity }
        ensures answer { result ≡ inserted_in self.old.held (arc_value entry) }
    {
        let key = key_of(&entry);
        let place = place_of(&self.entries, &self.index, &entry, key);
        if place.same {
            return Inserted::Known;
        }
        add(&mut self.entries, &mut self.index, entry, key, place);
        if self.entries.len() > self.capacity {
            forget_oldest(&mut self.entries, &mut self.index);
        }
        Inserted::Stored
    }

    /// Jumps ahead by the longest entry of at most `left` steps that matches; where none does the state stays. No
    /// allocator is handed in.
    pub fn jump(&self, state: &mut State, left: u64) -> Option<u64>
        ensures longest { result ≡ longest self.now.held state.old left }
        ensures jump { IsJump result left state.old state.new }
    {
        match self.find_by(state, left, &mut Uncounted) {
            Some(i) => Some(jump_by(self.entry(i), state)),
            None => None,
        }
    }

    /// The position of the longest entry of at most `left` steps that matches. Each comparison of an entry with the
    /// state is counted as a probe. Only groups of which some entry has a fingerprint that the state has are searched:
    /// one of m entries takes at most k + 2 probes, where 2^k is at most m. Looks at one part of an entry, by which it may
    /// be passed over, are no probes.
    pub fn find<L: Ledger>(&self, state: &State, left: u64, probes: &mut Steps<L>) -> Option<usize>
        ensures none { IfNone result (longest self.now.held state.now left ≡ None) }
        ensures some { IfSome result (IsFound self.now.held state.now left) }
        ensures probes { (asked : List Asked) × AreAsked self.now.held state.now asked
            × (probes.new ≡ probes.old + sum_by (λ a. a.probes) asked) }
    {
        self.find_by(state, left, probes)
    }

    /// The same, counted otherwise.
    pub(crate) fn find_by<P: Probes>(
        &self,
        state: &State,
        left: u64,
        probes: &mut P,
    ) -> Option<usize>
        ensures none { IfNone result (longest self.now.held state.now left ≡ None) }
        ensures some { IfSome result (IsFound self.now.held state.now left) }
        ensures probes { (asked : List Asked) × AreAsked self.now.held state.now asked
            × (P.count probes.new ≡ raised P.more (sum_by (λ a. a.probes) asked) (P.count probes.old)) }
    {
        search(&self.entries, &self.index, state, left, probes)
    }

    /// How many groups its index has, where none stands in two places.
    #[cfg(test)]
    pub(crate) fn groups(&self) -> usize {
        self.index.groups(&self.entries)
    }

    /// How many entries it holds.
    pub fn len(&self) -> usize
        ensures { result ≡ length self.now.held }
    {
        self.entries.len()
    }

    /// How many entries it may hold.
    pub fn capacity(&self) -> usize
        ensures { result ≡ self.now.capacity }
    {
        self.capacity
    }

    /// One of its entries, the oldest first.
    pub fn entry(&self, i: usize) -> &Arc<Entry>
        requires { i < length self.now.held }
        ensures { arc_value result.now ≡ slice_index_or self.now.held i (arc_value result.now) }
    {
        &self.entries[i]
    }

    /// It does nothing. A caller's proof learns from it what holds of the content of every shard.
    pub fn truth(&self)
        ensures { IsContent self.now.capacity self.now.held }
    {
        let _ = &self.capacity;
    }
}
