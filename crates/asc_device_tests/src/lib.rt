//! Tests of single crates: devices, guest calls, streams and files, and generated images. They stand apart from these crates,
//! since a crate with tests is proved twice.
#![tactic(auto)]

#[cfg(test)]
mod calls;
#[cfg(test)]
mod devices;
#[cfg(test)]
mod generated;
#[cfg(test)]
mod streams;
