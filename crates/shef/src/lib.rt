// Decoding of SHEF texts into any sink.
#![tactic(auto)]

pub mod decode;
