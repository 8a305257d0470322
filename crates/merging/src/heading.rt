// The reader that gives the items of a .B header, line after line.
use items::Items;
use reader::Lines;

mod read;

pub use read::continued_items;

// The items left of one line, and the continuations behind it: so many of the lines that follow.
#[derive(Clone, Copy)]
pub struct Header<'a> {
    items: Items<'a>,
    lines: Lines<'a>,
    left: u8,
}
