// What the items of a message do.
#![tactic(auto)]

pub mod laws;
pub mod message;
pub mod turns;
