// A line, and the reader that gives the lines of a text, each lent from it.
ghost use Rattle.std.specs.Prelude.{◌≤◌, length};

mod read;

pub use read::{lines_are_cut, lines_join};

// A line less its end, and the place of its first byte in the text.
#[derive(Clone, Copy)]
pub struct Line<'a> {
    pub part: &'a [u8],
    pub place: usize,
}

// A text, read as far as `pos`. The whole text stays beside it: each line is promised to stand in the text at its place.
#[derive(Clone, Copy)]
pub struct Lines<'a> {
    text: &'a [u8],
    pos: usize,
    ghost within: { pos ≤ length text.now },
}
