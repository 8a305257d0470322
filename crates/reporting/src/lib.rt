// What is printed of the trials of a decoder: of single texts, and the tallies of many.
#![tactic(auto)]

mod single;
mod tally;

pub use single::{Detail, is_as_told, show_case, show_difference};
pub use tally::{Tally, closing, show_tally};
