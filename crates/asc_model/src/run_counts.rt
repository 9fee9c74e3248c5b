/// The numbers of a run.
#[derive(Clone, Copy, Debug, PartialEq, Eq)]
pub struct RunCounts {
    /// Steps done.
    pub executed: u64,
    /// Steps jumped over.
    pub skipped: u64,
    /// Visits at which a jump was asked for.
    pub asked: u64,
    /// Jumps.
    pub hits: u64,
}
