//! Tests of single crates: runs, saved entries, and the words and lines of the program. They stand apart from these crates,
//! since a crate with tests is proved twice.
#![tactic(auto)]

#[cfg(test)]
mod run;
#[cfg(test)]
mod save;
#[cfg(test)]
mod serial;
#[cfg(test)]
mod words;
