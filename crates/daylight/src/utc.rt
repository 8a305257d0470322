// Local readings in UTC.
ghost use Rattle.std.specs.Prelude.{◌≡◌};
ghost use Rattle.std.specs.Option.{option_map};
ghost use Rattle.instants.specs.Moments.{moment};
ghost use Rattle.daylight.specs.Zones.{seconds_behind};
ghost use Rattle.daylight.specs.Utc.{to_utc, utc_of, UtcIsLater};

use crate::rule::Rule;
use crate::zone::{Zone, is_saving};
use calendar::date::Date;
use instants::moves::{Move, Unit, moved};
use instants::seconds::HOUR_SECONDS;
use instants::utc_time::UtcTime;

// Daylight time is one hour less behind.
fn seconds_behind(zone: Zone, saving: bool) -> u64
    ensures { result ≡ seconds_behind zone saving }
{
    u64::from(zone.hours.saturating_sub(u8::from(saving))) * u64::from(HOUR_SECONDS)
}

// The time in UTC: the zone's hours are added, one less where daylight time is kept.
#[tactic(auto, unfolding(crate::specs::Utc::to_utc))]
pub fn to_utc(reading: (Date, u32), zone: Zone, saving: bool) -> Option<UtcTime>
    ensures { option_map moment result ≡ to_utc reading zone saving }
{
    let second = Move {
        unit: Unit::Second,
        count: 1,
    };
    let (date, second) = moved(reading, second, seconds_behind(zone, saving))?;
    UtcTime::new(date, second)
}

// The time in UTC under a rule, which is asked about this reading where the zone goes by it.
pub fn utc_of<R: Rule>(rule: &R, zone: Zone, reading: (Date, u32)) -> Option<UtcTime>
    ensures { option_map moment result ≡ utc_of (R.Rule.daylight rule.now) zone reading }
{
    to_utc(reading, zone, is_saving(rule, zone, reading))
}

// On the line of instants UTC is the reading plus the seconds behind; that of a real date is refused only outside 1900 to
// 2099.
pub fn utc_is_later()
    ensures { UtcIsLater }
{}
