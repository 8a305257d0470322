// How the items of a line are read.
ghost use Rattle.std.specs.Prelude.{◌≡◌, ◌+◌, ◌^◌, ◌<◌, ◌≤◌, [], length, IfSome, MatchOption};
ghost use Rattle.items.specs.Items.{body_items, fitted, message_items};
ghost use Rattle.items.specs.Steps.{Fits, FittingStep, ItemStep, items_ahead};
ghost use Rattle.std.specs.Iterator.{item_count};

use super::{Item, Items};
use crate::mark::{Run, body_len, run_len, trim};

// A place, lowered where `len` bytes from it on would pass the largest place.
pub fn fit(place: usize, len: usize) -> usize
    ensures value { result ≡ fitted place len }
    ensures valid { result + len < 2 ^ 64 }
{
    place.min(usize::MAX - len)
}

impl<'a> Item<'a> {
    // The item that stands at a place, none where its last byte would have no place.
    pub fn new(part: &'a [u8], place: usize) -> Option<Item<'a>>
        ensures { MatchOption result (2 ^ 64 ≤ place + length part.now) (λ x. (x.part.now ≡ part.now) × (x.place ≡ place)) }
    {
        if part.len() <= usize::MAX - place {
            Some(Item { part, place })
        } else {
            None
        }
    }
}

impl<'a> Items<'a> {
    // No items.
    pub fn none() -> Items<'a>
        ensures { items_ahead result ≡ [] }
    {
        Items { rest: None }
    }

    // The items of a message line's part that begins at `place`.
    pub fn of_line(part: &'a [u8], place: usize) -> Items<'a>
        ensures reads { items_ahead result ≡ message_items (fitted place (length part.now)) part.now }
        ensures placed { place + length part.now < 2 ^ 64 → items_ahead result ≡ message_items place part.now }
    {
        let place = fit(place, part.len());
        let (lead, part) = trim(part, Run::Loose);
        Items {
            rest: Some(Item {
                part,
                place: place + lead,
            }),
        }
    }

    // The items of a body line's part that begins at `place`.
    pub fn of_body(part: &'a [u8], place: usize) -> Items<'a>
        ensures reads { items_ahead result ≡ body_items (fitted place (length part.now)) part.now }
        ensures placed { place + length part.now < 2 ^ 64 → items_ahead result ≡ body_items place part.now }
    {
        let place = fit(place, part.len());
        let (rest, _) = part.split_at(body_len(part));
        if run_len(rest, Run::Blanks) == rest.len() {
            return Items::none();
        }
        Items {
            rest: Some(Item { part: rest, place }),
        }
    }

    pub fn next_item(&mut self) -> Option<Item<'a>>
        ensures step { ItemStep self.old result self.new }
        ensures fits { IfSome result Fits }
    {
        let line = self.rest?;
        let start = line.place;
        let len = run_len(line.part, Run::Stretch);
        let (piece, behind) = line.part.split_at(len);
        self.rest = match behind {
            [] => None,
            [_, rest @ ..] => Some(Item {
                part: rest,
                place: start + len + 1,
            }),
        };
        let (lead, part) = trim(piece, Run::Blanks);
        Some(Item {
            part,
            place: start + lead,
        })
    }
}

impl<'a> Iterator for Items<'a> {
    type Item = Item<'a>;

    ghost next_gives = { FittingStep };

    ghost remaining = { item_count items_ahead };

    fn next(&mut self) -> Option<Item<'a>> {
        self.next_item()
    }
}
