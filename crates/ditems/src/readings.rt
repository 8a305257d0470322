// The local reading that time groups say, where they say one.
ghost use Rattle.std.specs.Prelude.{◌≡◌};
ghost use Rattle.ditems.specs.Readings.{day_of, second_of, reading_of};

use crate::groups::Groups;
use calendar::date::Date;
use instants::seconds::{DAY_SECONDS, HOUR_SECONDS, MINUTE_SECONDS};

#[tactic(auto, unfolding(crate::specs::Readings::day_of))]
fn day_of(groups: Groups) -> Option<Date>
    ensures { result ≡ day_of groups }
{
    let year = u32::from(groups.century) * 100 + u32::from(groups.year);
    Date::message_day(year, groups.month, groups.day)
}

// Hour 24 is the end of the day, and has no minutes.
#[tactic(auto, unfolding(crate::specs::Readings::second_of))]
fn second_of(groups: Groups) -> Option<u32>
    ensures { result ≡ second_of groups }
{
    let minute = u32::from(groups.minute);
    let second = u32::from(groups.second);
    let all = u32::from(groups.hour) * HOUR_SECONDS + minute * MINUTE_SECONDS + second;
    (minute < 60 && second < 60 && all <= DAY_SECONDS).then_some(all)
}

// A real day of 1900 to 2099 and its second, 0 to 86,400.
pub fn reading_of(groups: Groups) -> Option<(Date, u32)>
    ensures { result ≡ reading_of groups }
{
    Some((day_of(groups)?, second_of(groups)?))
}
