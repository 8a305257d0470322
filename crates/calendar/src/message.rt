// Dates as messages write them, completed by the current date.
ghost use Rattle.std.specs.Prelude.{◌≡◌};
ghost use Rattle.calendar.specs.Nearest.{MessageDates};
ghost use Rattle.calendar.specs.Messages.{full_year, nearest_date, message_date};

use crate::date::{Date, day_number};
use text::two_digits;

// The year that two digits mean: of the century, 19 or 20, nearest to the current year; a tie goes to the earlier.
pub fn full_year(current: u16, two: u8) -> u16
    ensures { result ≡ full_year current two }
{
    let earlier = 1900 + u16::from(two);
    let later = 2000 + u16::from(two);
    if current.abs_diff(earlier) <= current.abs_diff(later) {
        earlier
    } else {
        later
    }
}

// The day nearest to the current date, of the years before, at and after it; a tie goes to the earlier.
pub fn nearest_date(current: Date, month: u8, day: u8) -> Option<Date>
    ensures { result ≡ nearest_date current month day }
{
    let year = u32::from(current.year);
    let here = day_number(current);
    let years = [year.saturating_sub(1), year, year + 1];
    years
        .iter()
        .filter_map(|year| Date::message_day(*year, month, day))
        .min_by_key(|date| here.abs_diff(day_number(*date)))
}

// The date that a field of digits writes, a real day of 1900 to 2099: mmdd, yymmdd or ccyymmdd.
#[tactic(auto, unfolding(crate::specs::Messages::message_date))]
pub fn message_date(field: &[u8], current: Date) -> Option<Date>
    ensures { result ≡ message_date field.now current }
{
    match *field {
        [m1, m2, d1, d2] => nearest_date(current, two_digits(m1, m2)?, two_digits(d1, d2)?),
        [y1, y2, m1, m2, d1, d2] => {
            let year = full_year(current.year, two_digits(y1, y2)?);
            Date::message_day(u32::from(year), two_digits(m1, m2)?, two_digits(d1, d2)?)
        }
        [c1, c2, y1, y2, m1, m2, d1, d2] => {
            let year = u32::from(two_digits(c1, c2)?) * 100 + u32::from(two_digits(y1, y2)?);
            Date::message_day(year, two_digits(m1, m2)?, two_digits(d1, d2)?)
        }
        _ => None,
    }
}

// The nearest day and the nearest century are chosen, and every date lies in 1900 to 2099.
pub fn message_dates()
    ensures { MessageDates }
{}
