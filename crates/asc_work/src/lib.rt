//! Workers, which trace guesses of later states beside a walk and insert the entries.
#![tactic(auto)]

mod halter;
mod joining;
mod lane;
mod lanes;
mod post;
mod scope;
mod team;
mod work;
mod worker;

pub use halter::{Flag, Halter};
pub use lanes::Lanes;
pub use post::TakenIn;
pub use team::Team;
pub use work::work_loop;
pub use worker::Worker;
