// The terms that D items set for the values behind them.
#![tactic(auto)]

pub mod created;
mod items;
pub mod laws;
mod observed;
mod settings;
pub mod stage;
pub mod terms;
