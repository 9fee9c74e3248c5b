//! The meaning of the machine: what a state is, which instruction a word is, and what one step of it does.
//!
//! The definitions stand in `specs/`. The code has the plain data types that they speak of, the numbers of a run and of
//! its workers, limits, and functions that stand for the laws that tie the definitions to one
//! another.
#![tactic(auto)]

mod fault;
mod instruction;
mod laws;
mod limits;
mod run_counts;
mod save_fault;
mod status;
mod tally;
mod version;
mod why;

pub use fault::{Fault, FaultKind};
pub use instruction::{Instr, Op};
pub use laws::{
    decode_is_the_table, entries_are_true, joins_are_true, many_steps_frame, one_step_frame,
    plain_steps_join, plain_steps_keep_states, reaches_are_computed, reaches_are_one,
    registers_follow_words, repeated_words_touch_no_new_register, rows_differ,
    states_determine_views, step_writes_bytes, steps_keep_states, steps_touch_places,
    views_determine_states,
};
pub use limits::{
    LEAST_SIZE, MOST_AHEAD, MOST_ENTRIES, MOST_ENTRY_STEPS, MOST_GUESSES, MOST_PLACES, MOST_SIZE,
    MOST_STEPS, MOST_WAITING, MOST_WORKERS, PAGE_SIZE, STEP_ROOM,
};
pub use run_counts::RunCounts;
pub use save_fault::SaveFault;
pub use status::Status;
pub use tally::{Column, Tally};
pub use version::Version;
pub use why::Why;
