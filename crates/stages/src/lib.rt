// The stages of reading a text, and what each line does in them.
#![tactic(auto)]

mod machine;
mod stage;

pub use stage::Machine;
