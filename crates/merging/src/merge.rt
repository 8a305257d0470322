// The items of a .B body line, merged with those of its header.
ghost use Rattle.std.specs.Prelude.{◌≡◌, false, IfSome};
ghost use Rattle.merging.specs.Headers.{header_ahead};
ghost use Rattle.merging.specs.Merging.{FilledStep, FittingPart, PartFits, PartStep, filled, from_header, is_d, parts_ahead};
ghost use Rattle.items.specs.Steps.{Fits, items_ahead};
ghost use Rattle.std.specs.Iterator.{item_count};

use crate::heading::Header;
use items::{Item, Items};

// An item of the header or of the line itself.
#[derive(Clone, Copy)]
pub enum Part<'a> {
    Header(Item<'a>),
    Line(Item<'a>),
}

// The items left of a header and of a body line; `waiting` where a code of the header waits for its value.
// It tells whose turn it is: no field lacks a value by it, so it stays a flag.
#[derive(Clone, Copy)]
pub struct Merged<'a> {
    header: Header<'a>,
    line: Items<'a>,
    waiting: bool,
}

pub fn is_d_item(item: &[u8]) -> bool
    ensures { result ≡ is_d item.now }
{
    matches!(item, [b'D', ..])
}

impl<'a> Header<'a> {
    // The next item that is not empty.
    pub fn next_filled(&mut self) -> Option<Item<'a>>
        ensures step { FilledStep self.old result self.new }
        ensures fits { IfSome result Fits }
    {
        self.find(|item| !item.part.is_empty())
    }
}

impl<'a> Merged<'a> {
    pub fn new(header: Header<'a>, line: Items<'a>) -> Merged<'a>
        ensures { parts_ahead result ≡ from_header (filled (header_ahead header.entry)) (items_ahead line.entry) }
    {
        Merged {
            header,
            line,
            waiting: false,
        }
    }

    // The next item, as a part of the header or of the line.
    pub fn next_part(&mut self) -> Option<Part<'a>>
        ensures step { PartStep self.old result self.new }
        ensures fits { IfSome result PartFits }
    {
        if !self.waiting {
            if let Some(item) = self.header.next_filled() {
                self.waiting = !is_d_item(item.part);
                return Some(Part::Header(item));
            }
        }
        let item = self.line.next_item()?;
        self.waiting = self.waiting && is_d_item(item.part);
        Some(Part::Line(item))
    }
}

impl<'a> Iterator for Merged<'a> {
    type Item = Part<'a>;

    ghost next_gives = { FittingPart };

    ghost remaining = { item_count parts_ahead };

    fn next(&mut self) -> Option<Part<'a>> {
        self.next_part()
    }
}
