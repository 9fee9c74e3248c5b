//! Bytes in pages: which pages are dirty, and copies of bytes that share the pages that are not.
#![tactic(auto)]

mod dirty;
mod numbers;
mod pages;

pub use dirty::DirtyPages;
pub use pages::{FRONT, GROUP, PAGE, Pages, word_in};
