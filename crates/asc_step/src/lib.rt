//! One step of the machine, over any state that code reads and writes through `Words`.
#![tactic(auto)]

mod arithmetic;
mod effect;
mod execute;
mod faults;
mod finish;
mod many;
mod places;
mod specialized;
mod stepped;
mod stepping;
mod version;

pub use many::{step_down, step_many, step_until};
pub use stepped::Stepped;
pub use stepping::{step, step_anew, step_settled, try_step};
