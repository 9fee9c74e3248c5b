ghost use Rattle.std.specs.Prelude.{◌≡◌, ◌<◌, ◌≤◌, ◌^◌, ℕ, [], ◌∷◌, length, slice_index_or, IfNone, IfSome, Some, None};
ghost use mathlib.Core.List.{IsPrefix};
ghost use Rattle.asc_model.specs.State.{State};
ghost use Rattle.asc_traj.specs.Jump.{IsJump};
ghost use Rattle.asc_find.specs.Finder.{Tells, bare_aid, jumps_after};
ghost use Rattle.asc_shard.specs.Content.{IsContent};
ghost use Rattle.asc_cache.specs.Cache.{ShardReader, AreLater, IsLater, IsOwnReader, content_seen, first_found, found_by};

use crate::reader::{Notice, ShardReader};
use crate::writer::{Leaving, ShardWriter};
use asc_find::Finder;
use asc_shape::State;
use std::marker::Model;
use std::sync::Wait;

/// The readers of all shards, as one finder.
///
/// It keeps the runtime's handle, since a look-up tries again until it is let in. It waits for no writer at work, and goes
/// on with the shard of a writer that was dropped.
#[derive(Drop)]
pub struct ShardReaders<R: Wait + Drop> {
    readers: Vec<ShardReader>,
    // Where the writers leave their shards. They are freed with it.
    leaving: Vec<Leaving<R>>,
    rt: R,
    asked: u64,
    given: u64,
    hits: u64,
}

impl<R: Wait + Drop> Model for ShardReaders<R> {
    ghost use Rattle.std.specs.Prelude.{◌≤◌};
    ghost use Rattle.asc_cache.specs.Cache as model;

    ghost Value = { model.ShardReaders };

    ghost view = { λ r. record {
      readers = r.readers.items;
      jumps = record { asked = r.asked; given = r.given; hits = r.hits };
    } };

    ghost invariant = { λ r. r.hits ≤ r.asked };
}

/// Asks shard after shard, each once, up to the first that finds a jump. It stands out of line, so that a look-up within no
/// steps saves no registers for it.
#[inline(never)]
fn jump_all<R: Wait>(
    rt: &R,
    readers: &mut [ShardReader],
    state: &mut State,
    left: u64,
) -> Option<u64>
    ensures jump { IsJump result left state.old state.new }
    ensures later { (i : ℕ) (d : ShardReader) → i < length readers.old
        → IsLater (slice_index_or readers.old i d) (slice_index_or readers.new i d) }
    ensures none { IfNone result ((i : ℕ) (d : ShardReader) → i < length readers.old
        → found_by state.old left (slice_index_or readers.new i d) ≡ None) }
    ensures some { IfSome result (λ n. (i : ℕ) × (i < length readers.old)
        × ((d : ShardReader) → found_by state.old left (slice_index_or readers.new i d) ≡ Some n)
        × ((k : ℕ) (d : ShardReader) → k < i → found_by state.old left (slice_index_or readers.new k d) ≡ None)) }
{
    for i in 0..readers.len() {
        if let Some(n) = readers[i].jump(rt, state, left) {
            return Some(n);
        }
    }
    None
}

/// It does nothing. A caller's proof learns from it that nothing is found within no steps, since each entry has some.
fn finds_no_step(readers: &[ShardReader])
    ensures { (state : State) (i : ℕ) (d : ShardReader) → i < length readers.now
        → found_by state 0 (slice_index_or readers.now i d) ≡ None }
{
    for reader in readers {
        reader.truth();
    }
}

/// The same, with what is found as one equation. Within no steps no shard is looked into.
fn jump_first<R: Wait>(
    rt: &R,
    readers: &mut [ShardReader],
    state: &mut State,
    left: u64,
) -> Option<u64>
    ensures jump { IsJump result left state.old state.new }
    ensures later { AreLater readers.old readers.new }
    ensures first { result ≡ first_found state.old left readers.new }
{
    if left == 0 {
        finds_no_step(readers);
        return None;
    }
    jump_all(rt, readers, state, left)
}

impl<R: Wait + Drop> ShardReaders<R> {
    /// Readers that were not asked yet.
    pub(crate) fn of(rt: R, readers: Vec<ShardReader>, leaving: Vec<Leaving<R>>) -> ShardReaders<R>
        ensures { result ≡ record { readers = readers.items; jumps = record { asked = 0; given = 0; hits = 0 } } }
    {
        ShardReaders {
            readers,
            leaving,
            rt,
            asked: 0,
            given: 0,
            hits: 0,
        }
    }

    /// Before the first look-up of a further run: it counts from 0 on. What the readers have seen stays.
    pub fn begin(&mut self)
        ensures { self.new ≡ record self.old { jumps = record { asked = 0; given = 0; hits = 0 } } }
    {
        self.asked = 0;
        self.given = 0;
        self.hits = 0;
    }

    /// How many shards there are.
    pub fn shards(&self) -> usize
        ensures { result ≡ length self.now.readers }
    {
        self.readers.len()
    }

    /// The reader of a shard takes in what its writer told: it waits until it has seen as much. From now on it sees no
    /// less.
    pub fn learn(&mut self, told: Notice)
        requires there { told.index < length self.old.readers }
        requires shard { (d : ShardReader) → told.shard ≡ (slice_index_or self.old.readers told.index d).shard }
        ensures told { (d : ShardReader) → IsPrefix told.stored (slice_index_or self.new.readers told.index d).seen }
        ensures later { AreLater self.old.readers self.new.readers }
        ensures jumps { self.new.jumps ≡ self.old.jumps }
    {
        let index = told.index();
        self.readers[index].learn(&self.rt, told);
    }

    /// The writer of a shard tells, and its reader learns: it has then seen all that is stored.
    pub fn meet<Q: Wait + Drop>(&mut self, writer: &ShardWriter<Q>)
        requires { IsOwnReader writer.now self.old.readers }
        ensures seen { (d : ShardReader)
            → IsPrefix writer.now.stored (slice_index_or self.new.readers writer.now.index d).seen }
        ensures later { AreLater self.old.readers self.new.readers }
        ensures jumps { self.new.jumps ≡ self.old.jumps }
    {
        self.learn(writer.tell());
    }

    /// How many insertions the reader of a shard has seen.
    pub fn seen(&self, i: usize) -> u64
        requires { i < length self.now.readers }
        ensures { (d : ShardReader) → result ≡ length (slice_index_or self.now.readers i d).seen }
    {
        self.readers[i].seen()
    }

    /// It does nothing. A caller's proof learns from it what holds of what a reader has seen.
    pub fn truth(&self, i: usize)
        requires { i < length self.now.readers }
        ensures { (d : ShardReader) → IsContent (slice_index_or self.now.readers i d).capacity
            (content_seen (slice_index_or self.now.readers i d)) }
    {
        self.readers[i].truth();
    }
}

impl<R: Wait + Drop> Finder for ShardReaders<R> {
    ghost use Rattle.asc_find.specs.Serial.{Serial, serial_reply};

    ghost aid = { λ s. bare_aid s.jumps };

    fn jump(&mut self, state: &mut State, left: u64) -> Option<u64>
        requires left { left ≤ 2 ^ 40 }
        requires asked { self.old.jumps.asked < 2 ^ 62 }
        requires given { self.old.jumps.given < 2 ^ 62 }

        // What every finder's jump is.
        ensures jump { IsJump result left state.old state.new }
        ensures jumps { self.new.jumps ≡ jumps_after self.old.jumps result }
        ensures replies { Tells (result ∷ []) None None }
        ensures plan { Unit {0} }
        ensures machine { Unit {0} }
        ensures longest { (m : Serial) → None ≡ Some m → result ≡ serial_reply m state.old left }

        // Each shard is asked at its turn, and sees no less than before. The first that finds a jump gives it.
        ensures later { AreLater self.old.readers self.new.readers }
        ensures first { result ≡ first_found state.old left self.new.readers }
    {
        let found = jump_first(&self.rt, &mut self.readers, state, left);
        self.asked += 1;
        if let Some(steps) = found {
            self.given += steps;
            self.hits += 1;
        }
        found
    }

    fn asked(&self) -> u64 {
        self.asked
    }

    fn given(&self) -> u64 {
        self.given
    }

    fn hits(&self) -> u64 {
        self.hits
    }
}
