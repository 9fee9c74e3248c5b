//! A law on files of entries. It is what a function ensures that does nothing.

ghost use Rattle.asc_save.specs.Laws.{FilesMeanTheirEntries};

/// Bytes mean a shape and entries exactly where they are the file of these. The entries are within the bounds of files, and
/// each is what tracing it anew gives.
pub fn files_mean_their_entries()
    ensures { FilesMeanTheirEntries }
{}
