ghost use Rattle.std.specs.Prelude.{◌≡◌, length};
ghost use Rattle.asc_cache.specs.History.{tried_in};

use crate::log::Front;
use asc_shard::Shard;
use asc_traj::Entry;
use left_right::Absorb;
use std::alloc::{AllocError, Global};
use std::sync::Arc;

/// An insertion, with the log up to where its entry was tried.
#[derive(Drop)]
pub(crate) struct Operation {
    pub entry: Arc<Entry, Global>,
    /// How many insertions that makes.
    pub stored: u64,
    /// How many notes the log then has.
    pub notes: u64,
    pub front: Front,
    ghost stored_is: { length (tried_in front.log) ≡ stored },
    ghost notes_is: { length front.log ≡ notes },
}

/// One of the two instances of a doubled shard, with the log up to the last insertion that it has taken in.
#[derive(Drop)]
pub(crate) struct Instance {
    pub shard: Shard,
    /// How many insertions it has taken in.
    pub stored: u64,
    /// How many notes its log has.
    pub notes: u64,
    pub front: Front,
    ghost stored_is: { length (tried_in front.log) ≡ stored },
    ghost notes_is: { length front.log ≡ notes },
}

impl Absorb<Operation> for Instance {
    ghost use Rattle.asc_cache.specs.ShardRule.{state_of, absorbed};

    type State = (Shard, Front);

    ghost state = { state_of };

    ghost applied = { absorbed };

    fn absorb_first(&mut self, operation: &Operation, _other: &Instance) -> Result<(), AllocError> {
        let entry = Arc::try_clone(&operation.entry)?;
        self.shard.insert(entry);
        self.stored = operation.stored;
        self.notes = operation.notes;
        self.front = operation.front.again();
        Ok(())
    }
}
