// An item, and the reader that gives the items of a line.
ghost use Rattle.std.specs.Prelude.{◌+◌, ◌^◌, ◌<◌, length};
ghost use Rattle.std.specs.Option.{ForSome};

mod read;

pub use read::fit;

// The raw bytes of an item, and the place of its first byte in the text. A type beside `Line`, so that neither is taken for the other.
#[derive(Clone, Copy)]
pub struct Item<'a> {
    pub part: &'a [u8],
    pub place: usize,
}

// What is left of a line, not yet cut into items; nothing where no item is left.
#[derive(Clone, Copy)]
pub struct Items<'a> {
    rest: Option<Item<'a>>,
    ghost fits: { ForSome rest (λ x. x.place + length x.part.now < 2 ^ 64) },
}
