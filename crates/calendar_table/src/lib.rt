// Years, months, days, weekdays and dates of messages, one line to a case.
#![tactic(auto)]

pub mod days;
pub mod messages;
mod show;
pub mod weekdays;
