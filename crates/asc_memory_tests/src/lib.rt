//! Tests of single crates: bytes in pages, states, tracers and tallies. They stand apart from these crates, since a crate with
//! tests is proved twice.
#![tactic(auto)]

#[cfg(test)]
mod pages;
#[cfg(test)]
mod states;
#[cfg(test)]
mod tallies;
#[cfg(test)]
mod tracers;
