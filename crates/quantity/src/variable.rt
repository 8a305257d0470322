// The duration number that a DV item gives.
ghost use Rattle.std.specs.Prelude.{◌≡◌, true};
ghost use Rattle.quantity.specs.Codes.{variable_number};

#[derive(Clone, Copy)]
pub struct Variable {
    pub number: u16,
    ghost ok: { variable_number number ≡ true },
}
