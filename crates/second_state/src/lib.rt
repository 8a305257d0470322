// The state of a message in the second decoder, and the items that change it.
#![tactic(auto)]

pub mod settings;
pub mod state;
