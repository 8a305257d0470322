// Daylight rules, zones and UTC.
#![tactic(auto)]

pub mod law_rule;
pub mod list_rule;
pub mod rule;
pub mod setting;
pub mod span;
pub mod utc;
pub mod zone;
