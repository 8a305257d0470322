// Values as messages write them and as records show them: reading, conversion to English units, and writing.
#![tactic(auto)]

pub mod column;
mod convert;
pub mod digits;
mod faults;
pub mod laws;
mod number;
pub mod read;
pub mod reading;
pub mod write;
