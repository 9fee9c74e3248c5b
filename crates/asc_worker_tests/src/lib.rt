//! Tests of single crates: the cache, workers, lanes, and a run with workers beside it. They stand apart from these crates,
//! since a crate with tests is proved twice.
#![tactic(auto)]

#[cfg(test)]
mod cache;
#[cfg(test)]
mod crew;
#[cfg(test)]
mod halter;
#[cfg(test)]
mod lanes;
#[cfg(test)]
mod live;
#[cfg(test)]
mod work;
