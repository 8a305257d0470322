// The days of the week, and the Sundays of a month.
ghost use Rattle.std.specs.Prelude.{◌≡◌};
ghost use Rattle.calendar.specs.Sundays.{WeekdayLaws};
ghost use Rattle.calendar.specs.Weekdays.{weekday, nth_sunday};

use crate::date::{Date, day_number, month_length};

#[derive(Clone, Copy, PartialEq, Eq)]
pub enum Weekday {
    Sunday,
    Monday,
    Tuesday,
    Wednesday,
    Thursday,
    Friday,
    Saturday,
}

impl Date {
    // The number 1, of 1 January of the year 0, is that of a Saturday.
    #[tactic(auto, unfolding(crate::specs::Weekdays::weekday))]
    pub fn weekday(self) -> Weekday
        ensures { result ≡ weekday self }
    {
        match day_number(self) % 7 {
            0 => Weekday::Friday,
            1 => Weekday::Saturday,
            2 => Weekday::Sunday,
            3 => Weekday::Monday,
            4 => Weekday::Tuesday,
            5 => Weekday::Wednesday,
            _ => Weekday::Thursday,
        }
    }
}

// The day of the month on which its n-th Sunday falls, counted from 1, where it has so many.
#[tactic(auto, using(crate::proofs::Weekdays::nth_closed))]
pub fn nth_sunday(year: u16, month: u8, n: u8) -> Option<u8>
    ensures { result ≡ nth_sunday year month n }
{
    let weeks = u32::from(n.checked_sub(1)?);
    // The number of a Sunday leaves 2 when divided by 7.
    let days = (9
        - day_number(Date {
            year,
            month,
            day: 1,
        }) % 7)
        % 7;
    let day = 1 + days + 7 * weeks;
    if day <= u32::from(month_length(year, month)) {
        Some(day as u8)
    } else {
        None
    }
}

// Each day has the weekday after that of the day before, and the n-th Sunday has n Sundays up to it in its month.
pub fn weekday_laws()
    ensures { WeekdayLaws }
{}
