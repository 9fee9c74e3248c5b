ghost use Rattle.std.specs.Prelude.{◌≡◌, true, None, IfOk, IfSome, OnErr, if◌then◌else◌};
ghost use Rattle.std.specs.Arc.{arc_value};
ghost use Rattle.std.specs.Option.{is_some, option_map};
ghost use Rattle.asc_outside.specs.Outside.{one_more};
ghost use Rattle.asc_work.specs.Worker.{join_behind, shard_with};

use asc_cache::Insert;
use asc_outside::Memory;
use asc_traj::Entry;
use std::alloc::Global;
use std::sync::Arc;

/// What a worker keeps to join entries.
#[derive(Drop)]
pub(crate) struct Joining {
    /// Whether it joins them.
    pub(crate) join: bool,
    /// The entry of the last job that was stored.
    pub(crate) kept: Option<Arc<Entry>>,
    /// At how many jobs a join, or an entry to keep, was left out for want of memory.
    pub(crate) left_out: u64,
}

impl Joining {
    /// It keeps no entry, and has left out nothing.
    pub(crate) fn new(join: bool) -> Joining
        ensures { result ≡ record { join = join; kept = None; left_out = 0 } }
    {
        Joining {
            join,
            kept: None,
            left_out: 0,
        }
    }

    /// A further reference to an entry that may be kept. There is none where the worker does not join, or memory is wanting.
    pub(crate) fn copy_of(&self, entry: &Arc<Entry>) -> Option<Arc<Entry>>
        ensures { IfSome result (λ copy. arc_value copy ≡ arc_value entry.now) }
    {
        if self.join {
            Arc::try_clone(entry).ok()
        } else {
            None
        }
    }

    /// Inserts the join of the kept entry and another behind it, where there is one. Memory is wanting only then.
    pub(crate) fn insert_join<W: Insert>(
        &self,
        alloc: Global,
        entry: &Entry,
        writer: &mut W,
    ) -> Result<(), Memory>
        ensures joined { IfOk result (λ _. W.content writer.new
            ≡ shard_with (W.content writer.old) (join_behind (option_map arc_value self.now.kept) entry.now)) }
        ensures memory { OnErr result (W.content writer.new ≡ W.content writer.old) }
        ensures due { OnErr result (is_some (join_behind (option_map arc_value self.now.kept) entry.now) ≡ true) }
        ensures identity { W.identity writer.new ≡ W.identity writer.old }
    {
        let Some(kept) = &self.kept else {
            return Ok(());
        };
        if let Some(joined) = Entry::join(alloc, kept, entry)? {
            writer.insert(joined)?;
        }
        Ok(())
    }

    /// Keeps an entry in place of the earlier one, or none. It counts where something was left out.
    pub(crate) fn keep(&mut self, entry: Option<Arc<Entry>>, has_all: bool)
        ensures { self.new ≡ record {
          join = self.old.join;
          kept = entry;
          left_out = if has_all then self.old.left_out else one_more self.old.left_out;
        } }
    {
        self.kept = entry;
        if !has_all {
            self.left_out = self.left_out.saturating_add(1);
        }
    }
}
