// Readings, which are a local date and a second of the day, and moves of them.
ghost use Rattle.std.specs.Prelude.{◌≡◌, ◌≢◌, MatchOption};
ghost use Rattle.second_time.specs.Units.{letter_of};

use crate::days;
use crate::days::Day;

const DAY: u64 = 86_400;

#[derive(Clone, Copy)]
pub struct Reading {
    pub date: Day,
    pub second: u64,
}

#[derive(Clone, Copy, Debug, PartialEq, Eq)]
pub enum Unit {
    Second,
    Minute,
    Hour,
    Day,
    Month,
    Year,
    MonthEnd,
}

impl Unit {
    // The unit that a letter names.
    pub fn named(letter: u8) -> Option<Unit>
        ensures { MatchOption result ((u : Unit) → letter_of u ≢ letter) (λ u. letter_of u ≡ letter) }
    {
        match letter {
            b'S' => Some(Unit::Second),
            b'N' => Some(Unit::Minute),
            b'H' => Some(Unit::Hour),
            b'D' => Some(Unit::Day),
            b'M' => Some(Unit::Month),
            b'Y' => Some(Unit::Year),
            b'E' => Some(Unit::MonthEnd),
            _ => None,
        }
    }
}

// So many units on, or back where the count is below 0.
#[derive(Clone, Copy)]
pub struct Move {
    pub unit: Unit,
    pub count: i64,
}

pub fn moved(from: Reading, by: Move) -> Option<Reading> {
    match by.unit {
        Unit::Second => by_seconds(from, by.count),
        Unit::Minute => by_seconds(from, by.count.checked_mul(60)?),
        Unit::Hour => by_seconds(from, by.count.checked_mul(3600)?),
        Unit::Day => by_days(from, by.count),
        Unit::Month => by_months(from, by.count),
        Unit::Year => by_months(from, by.count.checked_mul(12)?),
        Unit::MonthEnd => by_months(from, by.count).map(at_month_end),
    }
}

fn by_seconds(from: Reading, count: i64) -> Option<Reading> {
    let reached = days::number(from.date)
        .checked_mul(DAY)?
        .checked_add(from.second)?
        .checked_add_signed(count)?;
    Some(Reading {
        date: days::numbered(reached / DAY)?,
        second: reached % DAY,
    })
}

fn by_days(from: Reading, count: i64) -> Option<Reading> {
    let date = days::numbered(days::number(from.date).checked_add_signed(count)?)?;
    Some(Reading { date, ..from })
}

// Months on or back; the day is cut to the month's length.
fn by_months(from: Reading, count: i64) -> Option<Reading> {
    let start = u64::from(from.date.year) * 12 + u64::from(from.date.month.saturating_sub(1));
    let reached = start.checked_add_signed(count)?;
    if reached >= 120_000 {
        return None;
    }
    let year = (reached / 12) as u16;
    let month = (reached % 12) as u8 + 1;
    let day = from.date.day.min(days::month_length(year, month));
    let date = Day { year, month, day };
    Some(Reading { date, ..from })
}

fn at_month_end(from: Reading) -> Reading {
    let day = days::month_length(from.date.year, from.date.month);
    let date = Day { day, ..from.date };
    Reading { date, ..from }
}
