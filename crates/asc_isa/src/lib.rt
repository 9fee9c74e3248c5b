//! Which instruction a word is.
#![tactic(auto)]

mod decoding;
mod encoding;
mod fields;
mod likely;
mod operands;

pub use decoding::decode;
pub use likely::decode_likely;
pub use operands::operation;
