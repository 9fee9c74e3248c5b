//! A state that tells how each of its places was touched, and what stood there before.
#![tactic(auto)]

mod bitmap;
mod laws;
mod touched;
mod tracer;
mod unfilled;

pub use bitmap::Block;
pub use laws::{
    limits_stay, no_statuses, reads_are_undone, starts_are_told, starts_stay, statuses_follow,
};
pub use tracer::{MOST_CAP, Tracer};
pub use unfilled::{PIECE, Unfilled};
