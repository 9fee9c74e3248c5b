ghost use Rattle.std.specs.Prelude.{◌≡◌, ◌<◌, ◌≤◌, true, false, length, Err, IfOk, IfErr, OnErr};
ghost use Rattle.std.specs.Arc.{arc_value};
ghost use Rattle.asc_shard.specs.Content.{inserted_in, IsContent};
ghost use Rattle.asc_cache.specs.Cache.{IsOpened, shard_of, notice_of, writer_after, writer_left};
ghost use Rattle.asc_cache.specs.declared.writer.Refused.TheVariants.{Publication};

use crate::doubled::Doubled;
use crate::reader::{Notice, ShardReader};
use asc_outside::Memory;
use asc_shard::{Inserted, MOST_CAPACITY};
use asc_traj::Entry;
use std::alloc::Global;
use std::marker::Model;
use std::sync::{Arc, Mutex, Wait};

/// The doubled shard of a writer that has gone. Its reader still looks into it, and frees it in the end.
pub(crate) struct Left<R: Wait + Drop> {
    doubled: Doubled,
    rt: R,
}

impl<R: Wait + Drop> Drop for Left<R> {
    fn drop(self) {
        let Self { doubled, rt } = self;
        doubled.take(&rt);
    }
}

/// Where a writer leaves its doubled shard when it goes. The shard's reader owns it too.
pub(crate) type Leaving<R> = Arc<Mutex<Option<Left<R>>>, Global>;

/// Which call of an insertion found no memory.
#[derive(Clone, Copy, Debug, PartialEq, Eq)]
pub enum Refused {
    /// The entry was not appended. All stands as before, and the next insertion is tried.
    Append,
    /// The entry, or one before it, was appended and not published. It is pending, and no later one is stored.
    Publication,
}

/// The only writer of a shard. Once it is dropped, its reader goes on with what is stored.
///
/// It keeps the runtime's handle twice: the second goes with what it leaves.
pub struct ShardWriter<R: Wait + Drop> {
    doubled: Doubled,
    // The number of its shard in the cache.
    index: usize,
    rt: R,
    last: R,
    leaving: Leaving<R>,
}

impl<R: Wait + Drop> Model for ShardWriter<R> {
    ghost use Rattle.std.specs.Prelude.{is_some};
    ghost use Rattle.asc_cache.specs.Cache as model;

    ghost Value = { model.ShardWriter };

    ghost view = { λ w. record {
      shard = w.doubled.shard;
      index = w.index;
      capacity = w.doubled.capacity;
      stored = w.doubled.stored;
      refused = is_some w.doubled.pending;
    } };
}

impl<R: Wait + Drop> ShardWriter<R> {
    /// Stores an entry, unless one that is the same is held, and publishes it. Where memory is wanting nothing is
    /// stored: if it was wanting before the entry was appended, all stands as before, and the next insertion is tried. If
    /// it was wanting for the publication, the entry is pending, and this writer answers `Memory` from then on.
    pub fn insert(&mut self, entry: Arc<Entry, Global>) -> Result<Inserted, Memory>
        ensures answer { IfOk result (λ i. i ≡ inserted_in (shard_of self.old).held (arc_value entry)) }
        ensures stored { IfOk result (λ i. self.new ≡ writer_after self.old i (arc_value entry)) }
        ensures refused { IfOk result (λ _. self.old.refused ≡ false) }
        ensures memory { OnErr result (self.new ≡ record self.old { refused = self.new.refused }) }
        ensures ended { self.old.refused ≡ true → self.new ≡ self.old }
    {
        match self.try_insert(entry) {
            Ok(inserted) => Ok(inserted),
            Err(_refused) => Err(Memory),
        }
    }

    /// As `insert`, and where memory is wanting it says for which call.
    pub fn try_insert(&mut self, entry: Arc<Entry, Global>) -> Result<Inserted, Refused>
        ensures answer { IfOk result (λ i. i ≡ inserted_in (shard_of self.old).held (arc_value entry)) }
        ensures stored { IfOk result (λ i. self.new ≡ writer_after self.old i (arc_value entry)) }
        ensures left { IfErr result (λ refused. self.new ≡ writer_left self.old refused) }
        ensures ended { self.old.refused ≡ true → result ≡ Err Publication }
    {
        if self.doubled.is_pending() {
            return Err(Refused::Publication);
        }
        if self.doubled.holds(&entry) {
            return Ok(Inserted::Known);
        }
        if self.doubled.append(entry).is_err() {
            return Err(Refused::Append);
        }
        match self.doubled.publish(&self.rt) {
            Ok(()) => Ok(Inserted::Stored),
            Err(Memory) => Err(Refused::Publication),
        }
    }

    /// What has been stored, for the shard's reader to learn.
    pub fn tell(&self) -> Notice
        ensures { result ≡ notice_of self.now }
    {
        self.doubled.tell(self.index)
    }

    /// The number of its shard in the cache.
    pub fn index(&self) -> usize
        ensures { result ≡ self.now.index }
    {
        self.index
    }

    /// How many insertions were stored.
    pub fn stored(&self) -> u64
        ensures { result ≡ length self.now.stored }
    {
        self.doubled.stored()
    }

    /// It does nothing. A caller's proof learns from it what holds of the content of every shard.
    pub fn truth(&self)
        ensures { IsContent self.now.capacity (shard_of self.now).held }
    {
        self.doubled.truth();
    }
}

impl<R: Wait + Drop> Drop for ShardWriter<R> {
    fn drop(self) {
        let Self {
            doubled,
            index: _,
            rt,
            last,
            leaving,
        } = self;
        let mut left = leaving.lock(&rt);
        *left = Some(Left { doubled, rt: last });
    }
}

/// An empty shard, as its writer and its reader, and where the writer leaves it.
pub(crate) fn open_shard<R: Wait + Copy>(
    alloc: Global,
    rt: R,
    index: usize,
    capacity: usize,
) -> Result<(ShardWriter<R>, ShardReader, Leaving<R>), Memory>
    requires { (0 < capacity) × (capacity ≤ MOST_CAPACITY) }
    ensures { IfOk result (λ r. IsOpened capacity index r.0 r.1) }
{
    let leaving = Arc::new(alloc, Mutex::new(None))?;
    let left = Arc::try_clone(&leaving)?;
    let (doubled, reader) = Doubled::open(alloc, &rt, capacity)?;
    let writer = ShardWriter {
        doubled,
        index,
        rt,
        last: rt,
        leaving,
    };
    Ok((writer, reader, left))
}
