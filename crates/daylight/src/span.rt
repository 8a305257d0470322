// The part of a year between two change days, each at 02:00.
ghost use Rattle.std.specs.Prelude.{◌≡◌};
ghost use Rattle.daylight.specs.Spans.{before_change, between};

use calendar::date::Date;
use instants::seconds::HOUR_SECONDS;

// The second of the day at which the clock changes.
const CHANGE: u32 = 2 * HOUR_SECONDS;

#[derive(Clone, Copy)]
pub struct MonthDay {
    pub month: u8,
    pub day: u8,
}

#[tactic(auto, unfolding(crate::specs::Spans::before_change))]
fn is_before(reading: (Date, u32), change: MonthDay) -> bool
    ensures { result ≡ before_change reading change }
{
    let (date, second) = reading;
    (date.month, date.day, second) < (change.month, change.day, CHANGE)
}

// From 02:00 on the first day to before 02:00 on the last, in the reading's year.
#[tactic(auto, unfolding(crate::specs::Spans::between))]
pub fn is_between(first: MonthDay, last: MonthDay, reading: (Date, u32)) -> bool
    ensures { result ≡ between first last reading }
{
    !is_before(reading, first) && is_before(reading, last)
}
