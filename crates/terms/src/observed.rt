// The observation times that the terms give to values.
ghost use Rattle.std.specs.Prelude.{◌≡◌};
ghost use Rattle.std.specs.Option.{option_map};
ghost use Rattle.instants.specs.Moments.{moment};
ghost use Rattle.daylight.specs.Settings.{told};
ghost use Rattle.terms.specs.Observed.{shifted as shifted_by, step_reading, observed_at};
ghost use Rattle.terms.specs.Standing.{standing};

use crate::terms::Terms;
use calendar::date::Date;
use daylight::rule::Rule;
use daylight::setting::Setting;
use daylight::utc::to_utc;
use daylight::zone::Zone;
use ditems::readings::reading_of;
use instants::moves::{Move, moved};
use instants::utc_time::UtcTime;

#[tactic(auto, unfolding(crate::specs::Observed::shifted))]
fn shifted(reading: (Date, u32), by: Option<Move>, times: u64) -> Option<(Date, u32)>
    ensures { result ≡ shifted_by by times reading }
{
    by.map_or(Some(reading), |by| moved(reading, by, times))
}

impl Terms {
    // The reading of a step, which lies that many intervals after that of step 0.
    #[tactic(auto, unfolding(crate::specs::Observed::step_reading))]
    fn step_reading(self, step: u64, reading: (Date, u32)) -> Option<(Date, u32)>
        ensures { result ≡ step_reading (standing self) step reading }
    {
        let first = shifted(reading, self.relative, 1)?;
        if step == 0 {
            Some(first)
        } else {
            shifted(first, self.interval, step)
        }
    }

    // The observation time of a step, counted from 0; a value that is no step is step 0.
    #[tactic(auto, unfolding(crate::specs::Observed::observed_at))]
    pub fn observed<R: Rule>(
        self,
        step: u64,
        zone: Zone,
        setting: &Setting<'_, R>,
    ) -> Option<UtcTime>
        ensures { option_map moment result ≡ observed_at (told R.daylight setting.now).daylight zone (standing self) step }
    {
        let reading = reading_of(self.groups)?;
        // Daylight is decided once, before all moves.
        let saving = setting.is_saving(zone, reading);
        let observed = self.step_reading(step, reading)?;
        to_utc(observed, zone, saving)
    }
}
