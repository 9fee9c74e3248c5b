//! At which address a run is visited, and what is guessed of later visits.
#![tactic(auto)]

mod choosing;
mod guessing;
mod kind;
mod visits;

pub use choosing::choose;
pub use guessing::{guess, guess_from};
pub use kind::Kind;
pub use visits::targets;
