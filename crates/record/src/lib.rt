// The record that a reading becomes, the names of its station and source, and which records there can be.
#![tactic(auto)]

pub mod laws;
pub mod record;
pub mod series;
pub mod station;
