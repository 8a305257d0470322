// Moves of local readings along the calendar.
ghost use Rattle.std.specs.Prelude.{◌≡◌, pos, ◌+ℤ◌, ◌*ℤ◌};
ghost use Rattle.calendar.specs.Dates.{date_of};
ghost use Rattle.instants.specs.Moving.{Moving};
ghost use Rattle.instants.specs.Moves.{natural, by_seconds, by_days, month_from, by_months, to_month_end, moved};

use crate::seconds::{DAY_SECONDS, HOUR_SECONDS, MINUTE_SECONDS};
use calendar::date::{Date, LAST_YEAR, date_of, day_number, month_length};

#[derive(Clone, Copy)]
pub enum Unit {
    Second,
    Minute,
    Hour,
    Day,
    Month,
    Year,
    MonthEnd,
}

#[derive(Clone, Copy)]
pub struct Move {
    pub unit: Unit,
    pub count: i8,
}

// The place that lies so far from `start`, where it is not below 0.
fn place_from(start: u64, distance: i128) -> Option<u128>
    ensures { result ≡ natural (pos start +ℤ distance) }
{
    u128::from(start).checked_add_signed(distance)
}

#[tactic(auto, unfolding(calendar::specs::Dates::date_of))]
fn day_at(ordinal: u128) -> Option<Date>
    ensures { result ≡ date_of ordinal }
{
    date_of(u32::try_from(ordinal).ok()?)
}

// A reading is a pair and no struct: its two parts come apart at each move and at each question to a daylight rule.
#[tactic(auto, unfolding(crate::specs::Moves::by_seconds))]
fn move_seconds(reading: (Date, u32), distance: i128) -> Option<(Date, u32)>
    ensures { result ≡ by_seconds reading distance }
{
    let (date, second) = reading;
    let start = u64::from(day_number(date)) * u64::from(DAY_SECONDS) + u64::from(second);
    let instant = place_from(start, distance)?;
    let date = day_at(instant / u128::from(DAY_SECONDS))?;
    Some((date, (instant % u128::from(DAY_SECONDS)) as u32))
}

#[tactic(auto, unfolding(crate::specs::Moves::by_days))]
fn move_days(date: Date, distance: i128) -> Option<Date>
    ensures { result ≡ by_days date distance }
{
    day_at(place_from(u64::from(day_number(date)), distance)?)
}

// The year and the month that lie so many months away.
#[tactic(auto, unfolding(crate::specs::Moves::month_from))]
fn move_months(date: Date, distance: i128) -> Option<(u16, u8)>
    ensures { result ≡ month_from date distance }
{
    let start = u64::from(date.year) * 12 + u64::from(date.month.saturating_sub(1));
    let place = place_from(start, distance)?;
    if place / 12 > u128::from(LAST_YEAR) {
        return None;
    }
    Some(((place / 12) as u16, (place % 12) as u8 + 1))
}

// The day is cut to the length of the new month.
#[tactic(auto, unfolding(crate::specs::Moves::by_months))]
fn keep_day(date: Date, distance: i128) -> Option<Date>
    ensures { result ≡ by_months date distance }
{
    let (year, month) = move_months(date, distance)?;
    let day = date.day.min(month_length(year, month));
    Some(Date { year, month, day })
}

// The day is the last of the month. It shares the month with keep_day; one function of both would take the day as a
// closure, and be longer than the two.
#[tactic(auto, unfolding(crate::specs::Moves::to_month_end))]
fn last_day(date: Date, distance: i128) -> Option<Date>
    ensures { result ≡ to_month_end date distance }
{
    let (year, month) = move_months(date, distance)?;
    let day = month_length(year, month);
    Some(Date { year, month, day })
}

// The reading, moved in one move by so many times the count of the unit. By seconds, minutes and hours the second
// comes out below 86,400; the other units keep it.
#[tactic(auto, unfolding(crate::specs::Moves::moved))]
pub fn moved(reading: (Date, u32), by: Move, times: u64) -> Option<(Date, u32)>
    ensures { result ≡ moved reading by.unit (pos times *ℤ by.count) }
{
    let (date, second) = reading;
    if !date.is_real() {
        return None;
    }
    let count = i128::from(times) * i128::from(by.count);
    match by.unit {
        Unit::Second => move_seconds(reading, count),
        Unit::Minute => move_seconds(reading, i128::from(MINUTE_SECONDS) * count),
        Unit::Hour => move_seconds(reading, i128::from(HOUR_SECONDS) * count),
        Unit::Day => Some((move_days(date, count)?, second)),
        Unit::Month => Some((keep_day(date, count)?, second)),
        Unit::Year => Some((keep_day(date, 12 * count)?, second)),
        Unit::MonthEnd => Some((last_day(date, count)?, second)),
    }
}

// Where moves of a reading of a real date land, and that they fail only where the calendar has no such place.
pub fn moving()
    ensures { Moving }
{}
