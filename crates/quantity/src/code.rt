// A full parameter code: element, duration, type, source, extremum and probability, with duration and type filled in.
ghost use Rattle.std.specs.Prelude.{◌≡◌, true};
ghost use Rattle.quantity.specs.Codes.{full_code};

#[derive(Clone, Copy)]
pub struct Code {
    pub signs: [u8; 7],
    ghost ok: { full_code signs ≡ true },
}
