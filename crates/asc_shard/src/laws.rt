//! The laws of shards. Each function stands for the law that it ensures, and does nothing.

ghost use Rattle.asc_shard.specs.Laws.{PrintsHideNoMatch, InsertionsAdd};

/// Fingerprints hide no match: a state that an entry matches has the fingerprint of that entry.
pub fn prints_hide_no_match()
    ensures { PrintsHideNoMatch }
{}

/// The content that some insertions leave is what `add` makes, with the last of them, of the content that the others
/// leave.
pub fn insertions_add()
    ensures { InsertionsAdd }
{}
