// The text of the second decoder: parts of it, lines, their kinds, comments, words and items.
#![tactic(auto)]

pub mod items;
pub mod lines;
pub mod parts;
pub mod words;
