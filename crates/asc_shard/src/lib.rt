//! A bounded list of entries, the oldest first, in which the longest that matches a state is found.
#![tactic(auto)]

mod find;
mod heads;
mod index;
mod key;
mod laws;
mod order;
mod prints;
mod shard;
#[cfg(test)]
mod tests;

pub use laws::{insertions_add, prints_hide_no_match};
pub use shard::{Inserted, MOST_CAPACITY, Shard};
