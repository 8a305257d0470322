// Codes, elements and values of the second decoder.
#![tactic(auto)]

pub mod codes;
pub mod elements;
pub mod values;
