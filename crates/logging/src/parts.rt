// Readers of the items of a line, each item the header's or the line's own.
ghost use Rattle.std.specs.Prelude.{◌≡◌, List, [], ◌∷◌, MatchOption, IfSome};
ghost use Rattle.items.specs.Steps.{Fits, item_piece, items_ahead};
ghost use Rattle.merging.specs.Merging.{PartFits, Sided, sided, parts_ahead};
ghost use Rattle.logging.specs.Own.{own_item, own_items};

use items::{Item, Items};
use merging::{Merged, Part};
use reader::Form;

// No Iterator: a function over one has to require that it ends, and no public function requires anything.
pub trait Parts<'a>: Drop {
    // The items that are yet to come.
    ghost ahead: { Self → List Sided };

    fn next_part(&mut self) -> Option<Part<'a>>
        ensures step { MatchOption result ((ahead self.old ≡ []) × (ahead self.new ≡ [])) (λ x. ahead self.old ≡ sided x ∷ ahead self.new) }
        ensures fits { IfSome result PartFits };
}

// The items of an opening line or a continuation.
#[derive(Clone, Copy)]
pub struct OwnParts<'a> {
    pub form: Form,
    pub items: Items<'a>,
}

// An item of a table's header is the header's, of another message the line's own.
fn own_part<'a>(form: Form, item: Item<'a>) -> Part<'a>
    ensures value { sided result ≡ own_item form (item_piece item.entry) }
    ensures fits { Fits item.entry → PartFits result }
{
    match form {
        Form::B => Part::Header(item),
        Form::A | Form::E => Part::Line(item),
    }
}

impl<'a> Parts<'a> for OwnParts<'a> {
    ghost ahead = { λ p. own_items p.form (items_ahead p.items) };

    fn next_part(&mut self) -> Option<Part<'a>> {
        let item = self.items.next_item()?;
        Some(own_part(self.form, item))
    }
}

// The items of a body line, merged with those of its header.
impl<'a> Parts<'a> for Merged<'a> {
    ghost ahead = { parts_ahead };

    fn next_part(&mut self) -> Option<Part<'a>> {
        Merged::next_part(self)
    }
}
