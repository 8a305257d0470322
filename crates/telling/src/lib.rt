// Outcomes in the form in which cases tell them.
#![tactic(auto)]

mod outcomes;
mod saying;

pub use outcomes::{faults, rows};
pub use saying::{say_all, show, show_text, verdict};
