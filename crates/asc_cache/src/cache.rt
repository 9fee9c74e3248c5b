ghost use Rattle.std.specs.Prelude.{◌≡◌, ◌≤◌, IfOk};
ghost use Rattle.asc_cache.specs.Cache.{AreOpened};

use crate::readers::ShardReaders;
use crate::writer::{ShardWriter, open_shard};
use asc_model::MOST_WORKERS;
use asc_outside::Memory;
use asc_shard::MOST_CAPACITY;
use std::alloc::Global;
use std::marker::Model;
use std::sync::Wait;

/// A cache of entries, in shards that have one writer and one reader each.
#[derive(Drop)]
pub struct Cache<R: Wait + Drop> {
    writers: Vec<ShardWriter<R>>,
    readers: ShardReaders<R>,
}

impl<R: Wait + Drop> Model for Cache<R> {
    ghost use Rattle.asc_cache.specs.Cache as model;

    ghost Value = { model.Cache };

    ghost view = { λ c. record { writers = c.writers.items; readers = c.readers } };
}

impl<R: Wait + Copy> Cache<R> {
    /// A cache of so many shards that hold nothing, and may hold `capacity` entries each. All their room is reserved
    /// here.
    pub fn open(alloc: Global, rt: R, shards: usize, capacity: usize) -> Result<Cache<R>, Memory>
        requires shards { (1 ≤ shards) × (shards ≤ MOST_WORKERS) }
        requires capacity { (1 ≤ capacity) × (capacity ≤ MOST_CAPACITY) }
        ensures opened { IfOk result (λ c. AreOpened shards capacity c.writers c.readers.readers) }
        ensures jumps { IfOk result (λ c. c.readers.jumps ≡ record { asked = 0; given = 0; hits = 0 }) }
    {
        let mut writers = Vec::with_capacity(alloc, shards)?;
        let mut readers = Vec::with_capacity(alloc, shards)?;
        let mut leaving = Vec::with_capacity(alloc, shards)?;
        for index in 0..shards {
            let (writer, reader, left) = open_shard(alloc, rt, index, capacity)?;
            writers.push(writer)?;
            readers.push(reader)?;
            leaving.push(left)?;
        }
        Ok(Cache {
            writers,
            readers: ShardReaders::of(rt, readers, leaving),
        })
    }

    /// The writers, shard by shard, and the readers of all shards.
    pub fn split(self) -> (Vec<ShardWriter<R>>, ShardReaders<R>)
        ensures writers { result.0.items ≡ self.writers }
        ensures readers { result.1 ≡ self.readers }
    {
        let Self { writers, readers } = self;
        (writers, readers)
    }
}
