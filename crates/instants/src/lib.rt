// Moves of local readings along the calendar, and times in UTC.
#![tactic(auto)]

pub mod moves;
pub mod seconds;
pub mod utc_minute;
pub mod utc_time;
