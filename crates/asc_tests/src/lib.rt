//! Tests that cross crates: whole runs, of `top` over an outside in memory and of `Walk` in either version, and single
//! steps. Expected values are worked out by hand from the formats and the instruction set, or come from another
//! implementation, and none from the program's own output. That `asc make` puts the bytes which `asc_make` gives is seen
//! too; those are tested there.
#![tactic(auto)]

#[cfg(test)]
mod batches;
#[cfg(test)]
mod generated;
#[cfg(test)]
mod images;
#[cfg(test)]
mod loading;
#[cfg(test)]
mod outside;
#[cfg(test)]
mod programs;
#[cfg(test)]
mod saved_entries;
#[cfg(test)]
mod shows;
#[cfg(test)]
mod single_steps;
#[cfg(test)]
mod sought;
#[cfg(test)]
mod traces;
#[cfg(test)]
mod whole_runs;
#[cfg(test)]
mod workers;
