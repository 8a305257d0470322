// What a record measures: a full parameter code and the duration number that goes with it.
ghost use Rattle.std.specs.Prelude.{◌≡◌, true};
ghost use Rattle.quantity.specs.Codes.{duration_fits};

use crate::code::Code;

#[derive(Clone, Copy)]
pub struct Parameter {
    pub code: Code,
    pub duration: u16,
    ghost ok: { duration_fits code.signs duration ≡ true },
}
