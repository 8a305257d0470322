// What the items and words of a line are, in words that do not say how they are found.
ghost use Rattle.items.specs.Blanked.{CommentsBlanked, ItemsBlanked};
ghost use Rattle.items.specs.Breaks.{BreaksAreSlashes};
ghost use Rattle.items.specs.Parting.{BodyParted, ItemsSplit, MessageParted, WordsFound};
ghost use Rattle.items.specs.Places.{ItemsStand};

// A message line is its items, joined by slashes, with nothing but blanks and comments around each, and slashes at its ends.
pub fn message_lines_are_parted()
    ensures { MessageParted }
{}

// So is a body line, of which one slash at the end is dropped.
pub fn body_lines_are_parted()
    ensures { BodyParted }
{}

// A first word has nothing but blanks and comments before it, none inside, and one or the end behind it.
pub fn words_are_found()
    ensures { WordsFound }
{}

// An item is its code and its value, with blanks and comments before, between and behind, and none inside the code.
pub fn items_are_split()
    ensures { ItemsSplit }
{}

// A comment reads as blanks: a line and the line with its comments blanked have the same items and words at the same places.
pub fn comments_read_as_blanks()
    ensures blanked { CommentsBlanked }
    ensures items { ItemsBlanked }
{}

// The items of a line that stands in a text at its place stand in the text at theirs.
pub fn items_stand_in_the_text()
    ensures { ItemsStand }
{}

// A line break, alone or with slashes and blanks beside it, is one slash.
pub fn line_breaks_are_slashes()
    ensures { BreaksAreSlashes }
{}
