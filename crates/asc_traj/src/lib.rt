//! Traces of steps, and what is kept of them: entries, which hold from every state that they match.
#![tactic(auto)]

mod cells;
mod entry;
mod halt;
mod join;
mod longest;
mod made;
mod part;
mod tracing;

pub use cells::{Cell, cells_of, next_cell};
pub use entry::Entry;
pub use halt::{Halt, Never};
pub use longest::{is_longer, jump_by, jump_longest, longest_match};
pub use made::Made;
pub use part::{Part, has_parts};
pub use tracing::{Stop, Traced, trace};
