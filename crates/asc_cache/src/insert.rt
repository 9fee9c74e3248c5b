ghost use Rattle.std.specs.Prelude.{◌≡◌, Option, IsOk};
ghost use Rattle.std.specs.Arc.{arc_value};
ghost use Rattle.asc_shard.specs.Shard.{Shard};
ghost use Rattle.asc_cache.specs.Insert.{IsInserted, ShardId};

use crate::writer::ShardWriter;
use asc_outside::Memory;
use asc_shard::{Inserted, Shard};
use asc_traj::Entry;
use std::alloc::Global;
use std::sync::{Arc, Wait};

/// Where entries are inserted.
pub trait Insert {
    /// The shard that its insertions have left.
    ghost content: { Self → Shard };

    /// The shard of a cache whose writer it is, where it is one.
    ghost identity: { Self → Option ShardId };

    /// Inserts an entry, unless one that is the same is held. Where memory is wanting the content stays.
    fn insert(&mut self, entry: Arc<Entry, Global>) -> Result<Inserted, Memory>
        ensures inserted { IsInserted result (arc_value entry) (content self.old) (content self.new) }
        ensures identity { identity self.new ≡ identity self.old };
}

impl<R: Wait + Drop> Insert for ShardWriter<R> {
    ghost use Rattle.std.specs.Prelude.{Some};
    ghost use Rattle.asc_cache.specs.Cache.{id_of, shard_of};

    ghost content = { shard_of };

    ghost identity = { λ w. Some (id_of w) };

    fn insert(&mut self, entry: Arc<Entry, Global>) -> Result<Inserted, Memory> {
        self.insert(entry)
    }
}

/// It inserts into a shard that is lent to it, and never answers `Memory`.
#[derive(Drop)]
pub struct ListWriter<'a> {
    shard: &'a mut Shard,
}

impl<'a> ListWriter<'a> {
    /// A writer into this shard.
    pub fn new(shard: &'a mut Shard) -> ListWriter<'a>
        ensures same_reference { result.shard.ghost_name ≡ shard.entry.ghost_name }
        ensures lent { result.shard.now ≡ shard.entry.now }
    {
        ListWriter { shard }
    }
}

impl Insert for ListWriter<'_> {
    ghost use Rattle.std.specs.Prelude.{None};

    ghost content = { λ w. w.shard.now };

    ghost identity = { λ _. None };

    fn insert(&mut self, entry: Arc<Entry, Global>) -> Result<Inserted, Memory>
        ensures same_reference { self.new.shard.ghost_name ≡ self.old.shard.ghost_name }
        ensures inserted { IsInserted result (arc_value entry) self.old.shard.now self.new.shard.now }
        ensures done { IsOk result }
    {
        Ok(self.shard.insert(entry))
    }
}
