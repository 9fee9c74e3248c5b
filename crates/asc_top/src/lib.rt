//! The program as one call: the words of a command line and the outside are handed in, and an answer is given.
#![tactic(auto)]

mod batch;
mod batch_files;
mod make;
mod numbers;
mod opened;
mod program;
mod rounds;
mod run;
mod runner;
mod save;
mod settings;
mod trial;

pub use program::{conclusion_alone, reported, top};
pub use settings::{guessing_of, visited_settings};
