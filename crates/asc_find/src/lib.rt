//! Finders of jumps, helpers that also learn of visits, and what is guessed at visits.
#![tactic(auto)]

mod finder;
mod guessing;
mod helper;
mod noted;

pub use finder::{Finder, ListFinder, Nothing};
pub use guessing::Guessing;
pub use helper::{Bare, Helper};
pub use noted::Noted;
