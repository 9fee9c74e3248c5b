//! Entries that are joined.
ghost use Rattle.std.specs.Prelude.{◌≡◌, ◌<◌, List, [], ◌∷◌, ◌++◌, length, IfOk, OnErr, true};
ghost use Rattle.std.specs.Arc.{arc_value};
ghost use Rattle.std.specs.Option.{is_some, option_map};
ghost use Rattle.asc_model.specs.Entry.{Entry as entry};
ghost use Rattle.asc_find.specs.Serial.{newest_join};

use asc_outside::Memory;
use asc_shard::Shard;
use asc_traj::Entry;
use std::alloc::Global;
use std::sync::Arc;

/// The join of a shard's newest entry behind the newest of the others that it may follow, where there is one.
///
/// The others are tried from the newest to the oldest. Memory is wanting only where there is a join.
pub(crate) fn join_newest(alloc: Global, shard: &Shard) -> Result<Option<Arc<Entry>>, Memory>
    requires { 0 < length shard.now.held }
    ensures joined { (others : List entry) (e : entry) → shard.now.held ≡ others ++ e ∷ []
        → IfOk result (λ joined. option_map arc_value joined ≡ newest_join others e) }
    ensures memory { (others : List entry) (e : entry) → shard.now.held ≡ others ++ e ∷ []
        → OnErr result (is_some (newest_join others e) ≡ true) }
{
    let newest = shard.len() - 1;
    for i in (0..newest).rev() {
        let joined = Entry::join(alloc, shard.entry(i), shard.entry(newest))?;
        if joined.is_some() {
            return Ok(joined);
        }
    }
    Ok(None)
}
