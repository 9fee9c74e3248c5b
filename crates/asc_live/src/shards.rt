ghost use Rattle.std.specs.Prelude.{◌≡◌, ◌≤◌, All, IfOk, fold, length, map};
ghost use Rattle.std.specs.Arc.{arc_value};
ghost use Rattle.asc_cache.specs.Cache.{shard_of};
ghost use Rattle.asc_shard.specs.Content.{add};
ghost use Rattle.asc_run.specs.Walk.{jumps};
ghost use Rattle.asc_live.specs.Crew.{HasLearnt, IsWriterOf};

use asc_cache::{Cache, ShardReaders, ShardWriter};
use asc_model::{MOST_ENTRIES, MOST_WORKERS};
use asc_outside::Memory;
use asc_traj::Entry;
use std::alloc::Global;
use std::sync::{Arc, Wait};

/// The writers and the readers of so many shards. These entries are in shard 0, and its reader has learnt them.
pub(crate) fn open_shards<R: Wait + Copy + Drop>(
    alloc: Global,
    rt: R,
    shards: usize,
    first: &[Arc<Entry>],
) -> Result<(Vec<ShardWriter<R>>, ShardReaders<R>), Memory>
    requires shards { (1 ≤ shards) × (shards ≤ MOST_WORKERS) }
    ensures writer_count { IfOk result (λ r. length r.0.items ≡ shards) }
    ensures reader_count { IfOk result (λ r. length r.1.readers ≡ shards) }
    ensures own { IfOk result (λ r. All (IsWriterOf r.1.readers) r.0.items) }
    ensures none_asked { IfOk result (λ r. r.1.jumps ≡ jumps 0 0 0) }
    ensures learnt { IfOk result (λ r. HasLearnt (map arc_value first.now) r.1.readers) }
{
    let (mut writers, mut readers) = Cache::open(alloc, rt, shards, MOST_ENTRIES)?.split();
    let writer = &mut writers[0];
    insert_all(writer, first)?;
    readers.meet(writer);
    Ok((writers, readers))
}

// Inserts entries in their order. Where memory is wanting the later ones are not inserted.
fn insert_all<R: Wait + Drop>(
    writer: &mut ShardWriter<R>,
    entries: &[Arc<Entry>],
) -> Result<(), Memory>
    ensures held { IfOk result (λ _. (shard_of writer.new).held
        ≡ fold (add writer.old.capacity) (shard_of writer.old).held (map arc_value entries.now)) }
    ensures rest { writer.new ≡ record writer.old { stored = writer.new.stored; refused = writer.new.refused } }
{
    for entry in entries {
        writer.insert(Arc::try_clone(entry)?)?;
    }
    Ok(())
}
