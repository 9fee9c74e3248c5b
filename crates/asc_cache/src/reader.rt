ghost use Rattle.std.specs.Prelude.{◌≡◌, ◌<◌, ◌≤◌, [], length};
ghost use mathlib.Core.List.{IsPrefix};
ghost use Rattle.left_right.specs.Sides.{view};
ghost use Rattle.asc_traj.specs.Content.{longest};
ghost use Rattle.asc_traj.specs.Jump.{IsJump};
ghost use Rattle.asc_shard.specs.Content.{content_of, IsContent};
ghost use Rattle.asc_cache.specs.History.{stored_in, tried_in};
ghost use Rattle.asc_cache.specs.ShardRule.{sight, HasLooked};
ghost use Rattle.asc_cache.specs.Cache.{IsLater, content_seen, found_by};

use crate::instance::Instance;
use crate::log::{Front, compare};
use crate::sight::{Enters, Logged, Sight};
use asc_shape::State;
use left_right::reader::Reader;
use std::marker::Model;
use std::sync::Wait;
use std::thread;

pub(crate) type ReadHandle = Reader<Instance, Sight, Logged>;

/// What a writer tells its reader: all insertions that are stored then.
#[derive(Drop)]
pub struct Notice {
    // The log up to the note that they are stored, and how many notes that is.
    front: Front,
    notes: u64,
    // The number of the shard in the cache.
    index: usize,
}

impl Model for Notice {
    ghost use Rattle.std.specs.Prelude.{◌≡◌, length};
    ghost use Rattle.asc_cache.specs.History.{stored_in};
    ghost use Rattle.asc_cache.specs.Cache as model;

    ghost Value = { model.Notice };

    ghost view = { λ t. record { shard = t.front.book; index = t.index; stored = stored_in t.front.log } };

    ghost invariant = { λ t. length t.front.log ≡ t.notes };
}

impl Notice {
    /// What a log of so many notes says is stored, of the shard of this number.
    pub(crate) fn of(front: &Front, notes: u64, index: usize) -> Notice
        requires { length front.now.log ≡ notes }
        ensures { result ≡ record { shard = front.now.book; index = index; stored = stored_in front.now.log } }
    {
        Notice {
            front: front.again(),
            notes,
            index,
        }
    }

    /// The number of the shard in its cache.
    pub fn index(&self) -> usize
        ensures { result ≡ self.now.index }
    {
        self.index
    }
}

/// The only reader of a shard.
#[derive(Drop)]
pub(crate) struct ShardReader {
    // It is there except while it looks.
    handle: Option<ReadHandle>,
    // The log up to the last insertion that it has seen.
    front: Front,
    // How many insertions it has seen.
    stored: u64,
    capacity: usize,
}

impl Model for ShardReader {
    ghost use Rattle.std.specs.Prelude.{◌≡◌, ◌<◌, IsSome, length};
    ghost use Rattle.std.specs.Option.{ForSome};
    ghost use Rattle.left_right.specs.Sides.{view as known_at};
    ghost use Rattle.asc_shard.specs.Content.{content_of, IsContent};
    ghost use Rattle.asc_cache.specs.History.{tried_in};
    ghost use Rattle.asc_cache.specs.ShardRule.{sight};
    ghost use Rattle.asc_cache.specs.Cache as model;

    ghost Value = { model.ShardReader };

    ghost view = { λ r. record { shard = r.front.book; capacity = r.capacity; seen = tried_in r.front.log } };

    ghost invariant = { λ r. (0 < r.capacity) × IsSome r.handle
        × ForSome r.handle (λ h. known_at h.place ≡ sight r.capacity r.front)
        × (length (tried_in r.front.log) ≡ r.stored) × IsContent r.capacity (content_of r.capacity (tried_in r.front.log)) };
}

/// What a reader has seen, with its handle.
#[derive(Drop)]
struct Looked {
    handle: ReadHandle,
    front: Front,
    stored: u64,
}

/// Enters, as often as it takes, and jumps by what is shown there.
fn look<R: Wait>(handle: ReadHandle, rt: &R, state: &mut State, left: u64) -> (Looked, Option<u64>)
    requires { 0 < (view handle.place).capacity }
    ensures looked { HasLooked (view handle.place) (view result.0.handle.place) result.0.front result.0.stored }
    ensures longest { result.1
        ≡ longest (content_of (view handle.place).capacity (tried_in result.0.front.log)) state.old left }
    ensures jump { IsJump result.1 left state.old state.new }
{
    let mut handle = handle;
    for _ in rt.forever() {
        match handle.enter_as::<Enters>() {
            Ok(reading) => {
                let shown = reading.get();
                shown.shard.truth();
                let found = shown.shard.jump(state, left);
                let front = shown.front.again();
                let stored = shown.stored;
                let handle = reading.leave();
                let looked = Looked {
                    handle,
                    front,
                    stored,
                };
                return (looked, found);
            }
            Err(back) => handle = back,
        }
        thread::yield_now();
    }
    unreachable!()
}

/// Enters until it has seen so many notes.
fn catch_up<R: Wait>(handle: ReadHandle, rt: &R, least: u64) -> Looked
    requires { 0 < (view handle.place).capacity }
    ensures looked { HasLooked (view handle.place) (view result.handle.place) result.front result.stored }
    ensures least { least ≤ length result.front.log }
{
    let mut handle = handle;
    for _ in rt.forever() {
        match handle.enter_as::<Enters>() {
            Ok(reading) => {
                let shown = reading.get();
                shown.shard.truth();
                let front = shown.front.again();
                let (stored, notes) = (shown.stored, shown.notes);
                handle = reading.leave();
                if least <= notes {
                    return Looked {
                        handle,
                        front,
                        stored,
                    };
                }
            }
            Err(back) => handle = back,
        }
        thread::yield_now();
    }
    unreachable!()
}

impl ShardReader {
    /// A reader that has seen no insertion.
    pub fn of(handle: ReadHandle, front: Front, capacity: usize) -> ShardReader
        requires { (0 < capacity) × (view handle.place ≡ sight capacity front) × (front.log ≡ []) }
        ensures { result ≡ record { shard = front.book; capacity = capacity; seen = [] } }
    {
        ShardReader {
            handle: Some(handle),
            front,
            stored: 0,
            capacity,
        }
    }

    /// Jumps ahead by the longest entry of at most `left` steps that matches, of what is seen then. No allocator is
    /// handed in.
    pub fn jump<R: Wait>(&mut self, rt: &R, state: &mut State, left: u64) -> Option<u64>
        ensures later { IsLater self.old self.new }
        ensures longest { result ≡ found_by state.old left self.new }
        ensures jump { IsJump result left state.old state.new }
    {
        let Some(handle) = self.handle.take() else {
            unreachable!()
        };
        let (looked, found) = look(handle, rt, state, left);
        self.handle = Some(looked.handle);
        self.front = looked.front;
        self.stored = looked.stored;
        found
    }

    /// Takes in what the writer told. From now on it sees no less. What is shown lacks the last note that was told: that
    /// the insertions are stored.
    pub fn learn<R: Wait>(&mut self, rt: &R, told: Notice)
        requires { told.shard ≡ self.old.shard }
        ensures later { IsLater self.old self.new }
        ensures told { IsPrefix told.stored self.new.seen }
    {
        let Some(handle) = self.handle.take() else {
            unreachable!()
        };
        let looked = catch_up(handle, rt, told.notes.saturating_sub(1));
        compare(&told.front, &looked.front);
        self.handle = Some(looked.handle);
        self.front = looked.front;
        self.stored = looked.stored;
    }

    /// How many insertions it has seen.
    pub fn seen(&self) -> u64
        ensures { result ≡ length self.now.seen }
    {
        self.stored
    }

    /// It does nothing. A caller's proof learns from it what holds of what is seen.
    pub fn truth(&self)
        ensures { IsContent self.now.capacity (content_seen self.now) }
    {
        let _ = &self.capacity;
    }
}
