// The letter behind a value that qualifies it; Z where none was sent.
ghost use Rattle.std.specs.Prelude.{◌≡◌, true};
ghost use Rattle.text.specs.Signs.{capital};

#[derive(Clone, Copy)]
pub struct Qualifier {
    pub letter: u8,
    ghost ok: { capital letter ≡ true },
}
