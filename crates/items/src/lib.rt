// Comments, words and items of a line, each lent from the text with its place.
#![tactic(auto)]

mod cut;
mod law;
mod mark;
mod word;

pub use cut::{Item, Items};
pub use law::{
    body_lines_are_parted, comments_read_as_blanks, items_are_split, items_stand_in_the_text,
    line_breaks_are_slashes, message_lines_are_parted, words_are_found,
};
pub use word::{Word, next_word, split_item};
