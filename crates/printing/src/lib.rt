// How lines of a text and pieces of them are printed.
#![tactic(auto)]

mod heading;
mod shown;

pub use heading::Heading;
pub use shown::{Placed, Shown};
