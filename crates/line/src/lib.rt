// The listing line of a record, and the record of a line.
#![tactic(auto)]

mod columns;
pub mod laws;
pub mod read;
mod starts;
pub mod write;

pub use read::record_of;
pub use write::line_of;

// The bytes of a line, its line feed among them.
pub const LINE_LENGTH: usize = 80;
