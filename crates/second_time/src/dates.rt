// Short dates completed against the current date.
ghost use Rattle.std.specs.Prelude.{◌≡◌, ◌+◌, ◌*◌, drop};
ghost use Rattle.second_time.specs.Dates.{century_of, two_digits};

use crate::days;
use crate::days::Day;

// The century, 19 or 20, in which a year of two digits is nearer to the current year.
pub fn century(today: Day, year: u8) -> u8
    ensures { result ≡ century_of today year }
{
    let early = 1900 + u16::from(year);
    let late = 2000 + u16::from(year);
    if late.abs_diff(today.year) < early.abs_diff(today.year) {
        20
    } else {
        19
    }
}

// The day of that month and day nearest to the current date, the earlier one at a tie.
pub fn nearest(today: Day, month: u8, day: u8) -> Option<Day> {
    let here = days::number(today);
    (today.year.saturating_sub(1)..=today.year.saturating_add(1))
        .map(|year| Day { year, month, day })
        .filter(|d| days::is_counted(*d))
        .min_by_key(|d| days::number(*d).abs_diff(here))
}

// Two digits at a place of a text.
pub fn two_digits(text: &[u8], at: usize) -> Option<u8>
    ensures { result ≡ two_digits (drop at text.now) }
{
    match text.get(at..)? {
        [tens @ b'0'..=b'9', ones @ b'0'..=b'9', ..] => Some(10 * (*tens - b'0') + (*ones - b'0')),
        _ => None,
    }
}

// A date of the form mmdd, yymmdd or ccyymmdd.
pub fn read_date(today: Day, text: &[u8]) -> Option<Day> {
    let first = two_digits(text, 0)?;
    let second = two_digits(text, 2)?;
    let given = match text.len() {
        4 => return nearest(today, first, second),
        6 => joined(century(today, first), first, second, two_digits(text, 4)?),
        8 => joined(first, second, two_digits(text, 4)?, two_digits(text, 6)?),
        _ => return None,
    };
    Some(given).filter(|d| days::is_counted(*d))
}

// The date of a century, a year in it, a month and a day.
pub fn joined(century: u8, year: u8, month: u8, day: u8) -> Day
    ensures { result ≡ record { year = century * 100 + year; month = month; day = day } }
{
    Day {
        year: u16::from(century) * 100 + u16::from(year),
        month,
        day,
    }
}
