//! A bounded queue of jobs with one giver and many takers, each job of which is taken at most once.
#![tactic(auto)]

mod hand;
mod job;
mod jobs;

pub use job::Job;
pub use jobs::{Full, Giver, Jobs, Taker};
