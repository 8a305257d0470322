// How the items of a header are read.
ghost use Rattle.std.specs.Prelude.{◌≡◌, ◌+◌, ◌^◌, ◌<◌, length, take, IfSome};
ghost use Rattle.merging.specs.Headers.{FittingStep, HeaderStep, continued_items, header_ahead, header_items};
ghost use Rattle.items.specs.Steps.{Fits, items_ahead};
ghost use Rattle.std.specs.Iterator.{item_count};
ghost use Rattle.reader.specs.Lines.{line_piece, lines_ahead};

use super::Header;
use items::{Item, Items};
use reader::{Line, Lines, continuation_of};

// The items behind the number of a continuation. A line of another kind has none.
pub fn continued_items<'a>(line: Line<'a>) -> Items<'a>
    ensures { line.entry.place + length line.entry.part.now < 2 ^ 64 → items_ahead result ≡ continued_items (line_piece line.entry) }
{
    match continuation_of(line.part) {
        Some(number) => {
            let (_, behind) = line.part.split_at(number.start);
            Items::of_line(behind, line.place.saturating_add(number.start))
        }
        None => Items::none(),
    }
}

impl<'a> Header<'a> {
    // The items of a header: those that the opening line has, and those of the next `count` lines, its continuations.
    pub fn new(opening: Items<'a>, lines: Lines<'a>, count: u8) -> Header<'a>
        ensures { header_ahead result ≡ header_items (items_ahead opening.entry) (take count (lines_ahead lines.entry)) }
    {
        Header {
            items: opening,
            lines,
            left: count,
        }
    }

    pub fn next_item(&mut self) -> Option<Item<'a>>
        ensures step { HeaderStep self.old result self.new }
        ensures fits { IfSome result Fits }
    {
        loop {
            if let Some(item) = self.items.next_item() {
                return Some(item);
            }
            self.left = self.left.checked_sub(1)?;
            let line = self.lines.next_line()?;
            self.items = continued_items(line);
        }
    }
}

impl<'a> Iterator for Header<'a> {
    type Item = Item<'a>;

    ghost next_gives = { FittingStep };

    ghost remaining = { item_count header_ahead };

    fn next(&mut self) -> Option<Item<'a>> {
        self.next_item()
    }
}
