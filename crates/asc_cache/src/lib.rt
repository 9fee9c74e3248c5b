//! A cache of entries that threads share: shards of one writer and one reader each, where look-ups wait for no writer.
//!
//! Each shard is doubled by the kit's `left_right`. A log of its insertions lies in a `logbook` beside it: in proofs
//! alone, since what lies in memory is its length.
#![tactic(auto)]

mod cache;
mod doubled;
mod insert;
mod instance;
mod log;
mod reader;
mod readers;
mod sight;
mod writer;

pub use cache::Cache;
pub use insert::{Insert, ListWriter};
pub use reader::Notice;
pub use readers::ShardReaders;
pub use writer::{Refused, ShardWriter};
