//! Where a run is best visited, as it shows while the run goes on.
//!
//! In a stretch of the run it is noted which addresses a step led back to: the heads of its loops. They are tried one after
//! the other, from the shortest laps on, until one pays well or eight stretches have passed. Else the best is kept, or there
//! is a rest where none is good enough. Where what is kept no longer pays, or a rest ends, a stretch twice as long is looked
//! at.
#![tactic(auto)]

mod heads;
mod seeker;

pub use heads::Head;
pub use seeker::{Phase, Scored, Seeker, Seeking, Service, Trial};
