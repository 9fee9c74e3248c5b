//! The outside: the traits of sources, sinks, stores and gates, their objects in memory, and the counter of steps.
#![tactic(auto)]

mod count_sink;
mod failures;
mod gate;
mod hold;
mod list_sink;
mod list_source;
mod list_store;
mod outside;
mod steps;
mod sure_source;

pub use count_sink::CountSink;
pub use gate::{Gate, Open, Point};
pub use hold::{Hold, HoldGate};
pub use list_sink::ListSink;
pub use list_source::ListSource;
pub use list_store::ListStore;
pub use outside::{Failed, Loaded, Memory, Sink, Source, Store, StoreFault, put_all};
pub use steps::Steps;
pub use sure_source::SureSource;
