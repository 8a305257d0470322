// How two texts read one behind the other, and where the events of a text stand in it.
#![tactic(auto)]

ghost use Rattle.joining.specs.Inside.{PlacesInside};
ghost use Rattle.joining.specs.Joining.{TextsJoin};
ghost use Rattle.joining.specs.Ordinary.{OrdinaryLines};

// A text that begins with an opening reads alike alone and behind another text that ends a line.
pub fn texts_join()
    ensures { TextsJoin }
{}

// Lines that neither open nor continue a message change nothing but places: in front of a text, behind one at whose end no table is
// open, and between such a text and one that begins with an opening.
pub fn ordinary_lines_add_nothing()
    ensures { OrdinaryLines }
{}

// Every record has a byte of the text for its place, and every refusal one or the text's end.
pub fn places_lie_inside()
    ensures { PlacesInside }
{}
