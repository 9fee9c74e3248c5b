//! The loader: what an ELF32 executable's bytes mean for a machine.
#![tactic(auto)]

mod cases;
mod fault;
mod file;
mod image;
mod laws;
mod segment;
mod table;

pub use fault::ElfFault;
pub use image::{Image, read};
pub use laws::a_prefix_of_an_image;
