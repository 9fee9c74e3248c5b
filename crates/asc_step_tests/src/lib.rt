//! Tests of single crates: decoding, images and steps, and traced steps beside plain ones. They stand apart from these
//! crates, since a crate with tests is proved twice.
#![tactic(auto)]

#[cfg(test)]
mod beside;
#[cfg(test)]
mod decoding;
#[cfg(test)]
mod images;
#[cfg(test)]
mod steps;
