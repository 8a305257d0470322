// Values, physical elements, units and parameter codes.
#![tactic(auto)]

pub mod amount;
pub mod code;
pub mod codes;
pub mod durations;
pub mod element;
pub mod elements;
pub mod laws;
pub mod make;
pub mod parameter;
pub mod parameters;
pub mod qualifier;
pub mod units;
pub mod value;
pub mod variable;
