//! Tests of single crates: traces, guesses, finders, queues of jobs, and searches for an address. They stand apart from these
//! crates, since a crate with tests is proved twice.
#![tactic(auto)]

#[cfg(test)]
mod finders;
#[cfg(test)]
mod guesses;
#[cfg(test)]
mod queues;
#[cfg(test)]
mod searches;
#[cfg(test)]
mod traces;
