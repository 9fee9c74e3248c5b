//! Guest calls: what a program asks of the world outside its machine.
#![tactic(auto)]

mod calls;
mod devices;
mod filling;

pub use calls::{Calls, Served};
pub use devices::{Devices, no_devices};
