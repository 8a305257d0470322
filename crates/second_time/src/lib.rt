// The calendar of the second decoder: days, readings, moves, zones and the daylight law.
#![tactic(auto)]

pub mod dates;
pub mod days;
pub mod moves;
pub mod zones;
