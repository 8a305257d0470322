// What the second decoder holds while it reads, and what each item of a message gives or changes.
#![tactic(auto)]

pub mod items;
pub mod reader;
pub mod refusals;
