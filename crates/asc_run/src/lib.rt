//! Runs of a program.
#![tactic(auto)]

mod joining;
mod last_visits;
mod laws;
mod made;
mod process;
mod profile;
mod recognised;
mod serial;
mod sought;
mod visited;
mod walk;

pub use last_visits::LastVisits;
pub use laws::{
    progress_is_plain, replies_determine_visits, rows_are_computed, serial_runs_are_one,
    serial_runs_are_savable,
};
pub use process::Process;
pub use recognised::Recognised;
pub use serial::Serial;
pub use walk::{Ended, Settings, Walk};
