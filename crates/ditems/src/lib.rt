// D items: what they say of times and moves.
#![tactic(auto)]

pub mod groups;
pub mod laws;
pub mod moves;
pub mod readings;
pub mod times;
