// Creation times, as DC items write them.
ghost use Rattle.std.specs.Prelude.{◌≡◌, ◌≤◌, IfSome};
ghost use Rattle.std.specs.Option.{option_map};
ghost use Rattle.instants.specs.Moments.{minute_of};
ghost use Rattle.daylight.specs.Settings.{told};
ghost use Rattle.terms.specs.Created.{date_length, created_reading, created_of};

use calendar::date::Date;
use calendar::message::message_date;
use daylight::rule::Rule;
use daylight::setting::Setting;
use daylight::zone::Zone;
use ditems::groups::{Group, Groups};
use ditems::readings::reading_of;
use ditems::times::set_groups;
use instants::utc_minute::UtcMinute;

// How many of so many digits write the date.
fn date_length(digits: usize) -> Option<usize>
    ensures value { result ≡ date_length digits }
    ensures valid { IfSome result (λ n. n ≤ digits) }
{
    match digits {
        6 | 8 => Some(4),
        10 => Some(6),
        12 => Some(8),
        _ => None,
    }
}

// The date, and an hour or an hour and a minute on it.
#[tactic(auto, unfolding(crate::specs::Created::created_reading))]
fn created_reading(today: Date, digits: &[u8]) -> Option<(Date, u32)>
    ensures { result ≡ created_reading today digits.now }
{
    let (date, clock) = digits.split_at(date_length(digits.len())?);
    let midnight = Groups::new(message_date(date, today)?, 0);
    reading_of(set_groups(midnight, Group::Hour, clock)?)
}

// Daylight is decided on the creation time's own reading.
#[tactic(auto, unfolding(crate::specs::Created::created_of))]
pub fn created_of<R: Rule>(digits: &[u8], zone: Zone, setting: &Setting<'_, R>) -> Option<UtcMinute>
    ensures { let S = told R.daylight setting.now in option_map minute_of result ≡ created_of S.today S.daylight zone digits.now }
{
    let reading = created_reading(setting.today, digits)?;
    let time = setting.utc(zone, reading)?;
    Some(time.to_minute())
}
