//! Walks that have workers beside them, and the helper of such a walk, which pushes jobs at its visits.
#![tactic(auto)]

mod budget;
mod crew;
mod ground;
mod laws;
mod lent;
mod live;
mod open_crew;
mod pusher;
mod rounds;
mod shards;
mod share;

pub use budget::Budget;
pub use crew::{Crew, Worked, go_beside};
pub use laws::{guesses_are_counted, shares_rise};
pub use live::Live;
pub use open_crew::OpenCrew;
pub use rounds::Rounds;
