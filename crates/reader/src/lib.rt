// The lines of a text, and what kind of line each is by how it begins.
#![tactic(auto)]

mod kind;
mod split;

pub use kind::{
    Continuation, Form, LineKind, continuation_of, is_readable, kind_of, kinds_are_told,
    letters_len,
};
pub use split::{Line, Lines, lines_are_cut, lines_join};
