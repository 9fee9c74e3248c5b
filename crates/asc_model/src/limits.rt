/// The least size of memory, in bytes: 64 KiB.
pub const LEAST_SIZE: u32 = 65_536;

/// The greatest size of memory, in bytes: 64 MiB.
pub const MOST_SIZE: u32 = 67_108_864;

/// Memory begins at a multiple of this.
pub const PAGE_SIZE: u32 = 4096;

/// How many further places a step may touch at most, in a trace.
pub const STEP_ROOM: usize = 32;

/// How many steps a run has.
pub const MOST_STEPS: u64 = 1 << 40;

/// How many places the trace of a guess may touch, how many bytes an entry in a file may read and how many it may write,
/// and how many cells two entries that are joined may have together. Another number would be another format of files.
pub const MOST_PLACES: usize = 4096;

/// How many steps an entry that is saved may have, and one that two are joined into, and how many steps a guess is traced.
pub const MOST_ENTRY_STEPS: u64 = 1_000_000_000;

/// How many entries the shard of a run holds, that of each of its workers, and a file of entries.
pub const MOST_ENTRIES: usize = 1024;

/// How many visits ahead are guessed.
pub const MOST_AHEAD: u32 = 64;

/// How many guesses are made at one visit: of two kinds, for each visit ahead.
pub const MOST_GUESSES: usize = 128;

/// How many jobs may wait in the queue of a run with workers.
pub const MOST_WAITING: usize = 1024;

/// How many workers go beside a run, or follow its guesses in rounds.
pub const MOST_WORKERS: usize = 64;
