//! Saved entries: a file of entries that one run keeps, and another run loads. Nothing of a file is believed: each entry
//! is traced anew.
#![tactic(auto)]

mod cells;
mod faults;
mod fields;
mod laws;
mod loading;
mod saved;
mod trace;
mod writing;

pub use laws::files_mean_their_entries;
pub use loading::{LoadFault, load};
pub use saved::Saved;
pub use writing::write;
