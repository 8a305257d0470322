// What a decode is told besides the text: the current date, and when daylight time is kept.
ghost use Rattle.std.specs.Prelude.{◌≡◌};
ghost use Rattle.std.specs.Option.{option_map};
ghost use Rattle.instants.specs.Moments.{moment};
ghost use Rattle.daylight.specs.Settings.{told};
ghost use Rattle.daylight.specs.Utc.{utc_of as utc_by};
ghost use Rattle.daylight.specs.Zones.{keeps_daylight};

use crate::rule::Rule;
use crate::utc::utc_of;
use crate::zone::{Zone, is_saving};
use calendar::date::Date;
use instants::utc_time::UtcTime;

// Clauses see the fields by `told`, which makes of the rule the function that says what readings are daylight. So there is no `impl Model`:
// what that shows may hold no function.
#[derive(Drop)]
pub struct Setting<'r, R> {
    pub today: Date,
    pub rule: &'r R,
}

impl<'r, R: Rule> Setting<'r, R> {
    // Whether a zone keeps daylight time at a local reading.
    pub fn is_saving(&self, zone: Zone, reading: (Date, u32)) -> bool
        ensures { result ≡ keeps_daylight (told R.daylight self.now).daylight zone.saving reading }
    {
        is_saving(self.rule, zone, reading)
    }

    // The time in UTC of a local reading, daylight decided on it.
    pub fn utc(&self, zone: Zone, reading: (Date, u32)) -> Option<UtcTime>
        ensures { option_map moment result ≡ utc_by (told R.daylight self.now).daylight zone reading }
    {
        utc_of(self.rule, zone, reading)
    }
}
