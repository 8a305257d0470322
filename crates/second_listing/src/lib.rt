// Records of the second decoder as listing lines.
#![tactic(auto)]

mod listing;

pub use listing::{Entry, Name, Series, listed, padded};
