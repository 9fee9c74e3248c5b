//! Five questions of the run of an image, and their answers: an entry, what a guess has wrong, registers, a profile of
//! addresses, and the address of a search. `asc_show` prints them.
#![tactic(auto)]

mod answer;
mod entry;
mod lap;
mod laws;
mod meetings;
mod miss;
mod miss_text;
mod profile;
mod profile_text;
mod registers;
mod request;
mod showing;
mod sought;
mod sought_text;
mod text;
mod visit;

pub use answer::{Answer, Reached};
pub use laws::meetings_are_visits;
pub use showing::show;
