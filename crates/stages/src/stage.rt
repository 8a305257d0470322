// The stages of reading, and what a message has left behind for them.
use items::Items;
use messages::message::{Message, Progress};
use reader::Lines;
use terms::terms::Terms;

// A message that has been opened: the terms of its opening, how far it has come, and the number of its last continuation.
#[derive(Clone, Copy)]
pub(crate) struct Open {
    pub message: Message,
    pub terms: Terms,
    pub progress: Progress,
    pub number: u8,
}

#[derive(Clone, Copy)]
pub(crate) enum Stage {
    Outside,
    Header(Open),
    Body(Open),
    Skipping,
}

// The reader's state: its stage, and where the header of the message is read again for each body line: the items of the opening line,
// and the lines behind it. These two stand beside the stage and not in `Open`: they stay as they are through a message, while that is
// written anew with each line.
#[derive(Clone, Copy)]
pub struct Machine<'a> {
    pub(crate) stage: Stage,
    pub(crate) opening: Items<'a>,
    pub(crate) lines: Lines<'a>,
}
