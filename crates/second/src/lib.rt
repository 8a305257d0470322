// A second decoder of SHEF messages, written on its own to check another by its results.
#![tactic(auto)]

mod messages;

pub use messages::{Answer, Outcome, decode};
pub use second_items::refusals::{Fault, Refusal};
pub use second_time::days::Day;
