ghost use Rattle.std.specs.Prelude.{◌≡◌, ◌<◌, ◌≤◌, ◌++◌, true, [], ◌∷◌, Some, None, is_some, drop, length, IfOk, OnOk, OnErr};
ghost use Rattle.std.specs.Arc.{arc_value};
ghost use Rattle.left_right.specs.Sides.{view};
ghost use Rattle.asc_model.specs.Entry.{Entry};
ghost use Rattle.asc_shard.specs.Content.{content_of, is_same_entry, IsContent};
ghost use Rattle.std.specs.List.{list_any};
ghost use Rattle.asc_cache.specs.ShardRule.{sight, empty_of, IsAlike, IsFolded, IsNext, state_of, absorbed};
ghost use Rattle.asc_cache.specs.declared.instance.Operation.{Operation as operation_model};

use crate::instance::{Instance, Operation};
use crate::log::{Front, Log, Note};
use crate::reader::{Notice, ShardReader};
use crate::sight::{Copies, Logged, Opens, Publishes, Sight};
use asc_outside::Memory;
use asc_shard::{MOST_CAPACITY, Shard};
use asc_traj::Entry;
use core::mem::replace_with;
use left_right::writer::Writer;
use std::alloc::{AllocError, Global};
use std::marker::Model;
use std::snapshot::Snapshot;
use std::sync::{Arc, Wait};

type WriteHandle = Writer<Instance, Operation, Sight, Logged>;

/// A doubled shard, as its writer has it. It is not `Drop`: end it by `take`.
pub(crate) struct Doubled {
    handle: WriteHandle,
    log: Log,
    // The log up to the note that what is shown is stored, and how many notes that is.
    told: Front,
    notes: u64,
}

impl Model for Doubled {
    ghost use Rattle.std.specs.Prelude.{drop};
    ghost use Rattle.asc_cache.specs.History.{tried_in};
    ghost use Rattle.asc_cache.specs.ShardRule as model;

    ghost Value = { model.Doubled };

    ghost view = { λ d. record {
      shard = d.handle.desk.shown.value.front.book;
      capacity = d.handle.desk.shown.value.shard.capacity;
      stored = tried_in d.handle.desk.shown.value.front.log;
      pending = model.entry_in (drop d.handle.behind d.handle.log.items);
    } };

    ghost invariant = { λ d. model.IsWritten d.handle.desk.shown.value (drop d.handle.behind d.handle.log.items) d.log.whole d.told d.notes };
}

// Publishes the one insertion that is pending.
fn publish_one<R: Wait>(handle: WriteHandle, rt: &R) -> (WriteHandle, Result<(), AllocError>)
    requires folded { IsFolded handle.desk.shown.value }
    requires next { (o : operation_model) × (drop handle.behind handle.log.items ≡ o ∷ []) × IsNext handle.desk.shown.value o }
    ensures ok { OnOk result.1 ((drop result.0.behind result.0.log.items ≡ [])
        × ((o : operation_model) → drop handle.behind handle.log.items ≡ o ∷ []
        → state_of result.0.desk.shown.value ≡ absorbed (state_of handle.desk.shown.value) o)) }
    ensures err { OnErr result.1 ((result.0.desk.shown.value ≡ handle.desk.shown.value)
        × (drop result.0.behind result.0.log.items ≡ drop handle.behind handle.log.items)) }
{
    handle.publish_as::<Publishes, R>(rt)
}

impl Doubled {
    /// Appends an entry, which is then pending. Where memory is wanting all stands as before: the log alone has a try that
    /// came to nothing.
    pub fn append(&mut self, entry: Arc<Entry, Global>) -> Result<(), Memory>
        requires { self.old.pending ≡ None }
        ensures appended { IfOk result (λ _. self.new ≡ record self.old { pending = Some (arc_value entry) }) }
        ensures memory { OnErr result (self.new ≡ self.old) }
    {
        let stored = self.handle.published().stored;
        let tries = Note::Tries(Snapshot::of(&*entry));
        if stored == u64::MAX || !self.log.append(&tries) {
            return Err(Memory);
        }
        let operation = Operation {
            entry,
            stored: stored + 1,
            notes: self.log.count,
            front: self.log.whole.again(),
        };
        match self.handle.append(operation) {
            Ok(()) => Ok(()),
            Err(_operation) => Err(Memory),
        }
    }

    /// Publishes the entry that is pending. Where memory is wanting all stands as before: it is pending still.
    pub fn publish<R: Wait>(&mut self, rt: &R) -> Result<(), Memory>
        requires { is_some self.old.pending ≡ true }
        ensures published { (e : Entry) → self.old.pending ≡ Some e
            → OnOk result (self.new ≡ record self.old { stored = self.old.stored ++ e ∷ []; pending = None }) }
        ensures memory { OnErr result (self.new ≡ self.old) }
    {
        if !self.log.append(&Note::Stores) {
            return Err(Memory);
        }
        replace_with(&mut self.handle, rt, publish_one)?;
        self.told = self.log.whole.again();
        self.notes = self.log.count;
        Ok(())
    }

    /// Whether an entry is pending.
    pub fn is_pending(&self) -> bool
        ensures { result ≡ is_some self.now.pending }
    {
        self.handle.has_pending_operations()
    }

    /// Whether an entry that is the same is held.
    pub fn holds(&self, entry: &Entry) -> bool
        ensures { result ≡ list_any (is_same_entry entry.now) (content_of self.now.capacity self.now.stored) }
    {
        self.handle.published().shard.holds(entry)
    }

    /// What is stored, for the reader of the shard of this number to learn.
    pub fn tell(&self, index: usize) -> Notice
        ensures { result ≡ record { shard = self.now.shard; index = index; stored = self.now.stored } }
    {
        Notice::of(&self.told, self.notes, index)
    }

    /// How many insertions are stored.
    pub fn stored(&self) -> u64
        ensures { result ≡ length self.now.stored }
    {
        self.handle.published().stored
    }

    /// It does nothing. A caller's proof learns from it what holds of the content of every shard.
    pub fn truth(&self)
        ensures { IsContent self.now.capacity (content_of self.now.capacity self.now.stored) }
    {
        self.handle.published().shard.truth();
    }

    /// Waits for its reader, and frees what is shown. What is pending is dropped.
    pub fn take<R: Wait>(self, rt: &R) {
        let Self {
            handle,
            log: _log,
            told: _told,
            notes: _,
        } = self;
        drop(handle.take(rt));
    }

    /// One that holds nothing, and its reader.
    pub fn open<R: Wait>(
        alloc: Global,
        rt: &R,
        capacity: usize,
    ) -> Result<(Doubled, ShardReader), Memory>
        requires { (0 < capacity) × (capacity ≤ MOST_CAPACITY) }
        ensures doubled { IfOk result (λ d. d.0 ≡ empty_of d.0.shard capacity) }
        ensures reader { IfOk result (λ d. d.1 ≡ record { shard = d.0.shard; capacity = capacity; seen = [] }) }
    {
        let log = Log::new();
        let first = empty(alloc, capacity, &log)?;
        let second = empty(alloc, capacity, &log)?;
        let handle: WriteHandle = Writer::new(alloc, first, second, 1)?;
        let (mut handle, begun) = begin(rt, handle);
        if begun.is_err() {
            drop(handle.take(rt));
            return Err(Memory);
        }
        let Ok(mut reader) = handle.factory().reader() else {
            drop(handle.take(rt));
            return Err(Memory);
        };
        reader.learn::<Copies>(handle.tell::<Copies>());
        let reader = ShardReader::of(reader, log.whole.again(), capacity);
        let told = log.whole.again();
        let doubled = Doubled {
            handle,
            log,
            told,
            notes: 0,
        };
        Ok((doubled, reader))
    }
}

// An instance of a shard that holds nothing.
fn empty(alloc: Global, capacity: usize, log: &Log) -> Result<Instance, Memory>
    requires { (0 < capacity) × (capacity ≤ MOST_CAPACITY) × (log.now.whole.log ≡ []) }
    ensures { IfOk result (λ x. (x.shard.held ≡ []) × (x.shard.capacity ≡ capacity) × (x.front ≡ log.now.whole)) }
{
    Ok(Instance {
        shard: Shard::new(alloc, capacity)?,
        stored: 0,
        notes: 0,
        front: log.whole.again(),
    })
}

// Publishes what there is, so that the writer's seat knows it.
fn begin<R: Wait>(rt: &R, handle: WriteHandle) -> (WriteHandle, Result<(), AllocError>)
    requires folded { IsFolded handle.desk.shown.value }
    requires none { drop handle.behind handle.log.items ≡ [] }
    ensures { OnOk result.1 ((drop result.0.behind result.0.log.items ≡ [])
        × IsAlike handle.desk.shown.value result.0.desk.shown.value
        × (view result.0.desk.place ≡ sight result.0.desk.shown.value.shard.capacity result.0.desk.shown.value.front)) }
{
    handle.publish_as::<Opens, R>(rt)
}
