// The items of a .B header, and those of a body line merged with them.
#![tactic(auto)]

ghost use Rattle.merging.specs.Merging.{MergedKeeps};
ghost use Rattle.merging.specs.OneLine.{HeadersAreOneLine};
ghost use Rattle.merging.specs.Order.{PartsInOrder};

mod heading;
mod merge;

pub use heading::{Header, continued_items};
pub use merge::{Merged, Part, is_d_item};

// No item of a body line is lost where it is merged with its header's, and the header's are its first ones, both in order.
pub fn merging_keeps_items()
    ensures { MergedKeeps }
{}

// The header's D items before the next code come first, and that code; then the line's own D items, and the value or empty item that uses the code up.
pub fn parts_come_in_order()
    ensures { PartsInOrder }
{}

// A header has the items of its lines made one, with a slash for each line break and the slashes and blanks beside it.
pub fn headers_are_one_line()
    ensures { HeadersAreOneLine }
{}
