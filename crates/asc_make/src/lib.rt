//! Generated workloads: an executable of any size of work from one number.
#![tactic(auto)]

mod file;
mod laws;
mod program;

pub use file::image;
pub use laws::words_stand_at_their_addresses;
