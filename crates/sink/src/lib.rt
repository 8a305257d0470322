// Sinks: what takes records and keeps them in order.
#![tactic(auto)]

pub mod laws;
pub mod listing;
pub mod sinks;
pub mod table;

pub use sinks::Sink;
