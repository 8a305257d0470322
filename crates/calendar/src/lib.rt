// The Gregorian calendar: dates and their numbers, and dates in messages.
#![tactic(auto)]

pub mod date;
pub mod message;
pub mod weekday;
