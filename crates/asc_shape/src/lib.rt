//! The state of a machine, its snapshots, and how code reads and writes it.
#![tactic(auto)]

mod bytes;
mod guess;
mod lanes;
mod laws;
mod page;
mod shape;
mod snapshot;
mod state;
mod words;

pub use bytes::Bytes;
pub use guess::Guess;
pub use laws::good_shapes_are_made;
pub use shape::{Shape, ShapeFault};
pub use snapshot::Snapshot;
pub use state::State;
pub use words::{Words, get_by_bytes, put_by_bytes};
