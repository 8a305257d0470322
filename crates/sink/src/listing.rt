// A listing in bytes that the caller lent: one line of eighty bytes for each record.
// It is no Vec, as the decoder has no heap: the caller lends the bytes, and finds behind the lines what lay there.
ghost use Rattle.std.specs.Prelude.{◌*◌, ◌≤◌, length};
ghost use Rattle.line.specs.Shown.{Shown};

pub mod keeps;

#[derive(Drop)]
pub struct Listing<'a> {
    pub bytes: &'a mut [u8],
    pub count: usize,
    ghost fits: { 80 * count ≤ length bytes.now },
    ghost shown: { ∥ Shown bytes.now count ∥₁ },
}
