use asc_guess::Kind;
use asc_shape::Snapshot;
use std::alloc::Global;
use std::sync::Arc;

/// A later visit that is to be guessed and traced.
#[derive(Drop)]
pub struct Job {
    /// How many jobs were pushed before it.
    pub ticket: u64,
    /// The state of the visit before the last one.
    pub prev: Arc<Snapshot, Global>,
    /// The state of the last visit.
    pub last: Arc<Snapshot, Global>,
    /// How many visits past the last one it is.
    pub ahead: u32,
    /// How its state is guessed.
    pub kind: Kind,
}
