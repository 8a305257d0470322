// A physical element: its two letters, how its SI unit becomes the English one, and its own duration.
ghost use Rattle.std.specs.Prelude.{◌≡◌, true};
ghost use Rattle.quantity.specs.Fractions.{fair};

#[derive(Clone, Copy)]
pub struct Element {
    pub first: u8,
    pub second: u8,
    // English = SI × numerator / denominator + offset, in ten-thousandths
    pub numerator: u64,
    pub denominator: u64,
    pub offset: u64,
    pub duration: u8,
    ghost ok: { fair numerator denominator offset ≡ true },
}
