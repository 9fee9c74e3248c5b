//! Readers, writers and files of the system as sources, sinks and stores.
#![tactic(auto)]

mod sink;
mod source;
mod steady;
mod store;

pub use sink::StreamSink;
pub use source::StreamSource;
pub use steady::{SteadyRead, SteadyWrite};
pub use store::FileStore;
