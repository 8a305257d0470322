// The name of a station or of a message's source: three to eight capitals or digits, padded with blanks on the right.
ghost use Rattle.std.specs.Prelude.{◌≡◌, true};
ghost use Rattle.record.specs.Stations.{station_text};

pub mod names;

#[derive(Clone, Copy)]
pub struct Station {
    pub text: [u8; 8],
    ghost ok: { station_text text ≡ true },
}
