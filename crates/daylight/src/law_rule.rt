// Daylight by law: from the second Sunday of March to the first Sunday of November, in every year.
ghost use Rattle.std.specs.Prelude.{◌≡◌};
ghost use Rattle.daylight.specs.Sundays.{sunday_of, law_daylight};

use crate::rule::Rule;
use crate::span::{MonthDay, is_between};
use calendar::date::Date;
use calendar::weekday::nth_sunday;

#[derive(Clone, Copy)]
pub struct LawRule;

// The n-th Sunday of a month, where it has so many.
fn sunday_of(year: u16, month: u8, n: u8) -> Option<MonthDay>
    ensures { result ≡ sunday_of year month n }
{
    let day = nth_sunday(year, month, n)?;
    Some(MonthDay { month, day })
}

impl Rule for LawRule {
    ghost daylight = { λ _ r. law_daylight r };

    fn is_daylight(&self, reading: (Date, u32)) -> bool {
        let year = reading.0.year;
        match (sunday_of(year, 3, 2), sunday_of(year, 11, 1)) {
            (Some(first), Some(last)) => is_between(first, last, reading),
            _ => false,
        }
    }
}
