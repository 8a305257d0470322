// Dates of the Gregorian calendar and the numbers of days.
ghost use Rattle.std.specs.Prelude.{◌≡◌, ◌+◌, ◌<◌, ◌≤◌, Some};
ghost use Rattle.calendar.specs.Numbers.{DayNumbers};
ghost use Rattle.calendar.specs.Dates.{leap, month_length, real, real_date, message_day, number, date_of, years_before, months_before};
ghost use Rattle.calendar.specs.Messages.{candidate};
ghost use Rattle.calendar.specs.Texts.{date_text};

use std::fmt;

// The years of the calendar are 0 to 9999, and the days are numbered from 1.
pub const LAST_YEAR: u16 = 9999;

pub const LAST_DAY: u32 = 3_652_425;

// The years that messages may speak of.
pub const FIRST_MESSAGE_YEAR: u16 = 1900;

pub const LAST_MESSAGE_YEAR: u16 = 2099;

#[derive(Clone, Copy, PartialEq, Eq)]
pub struct Date {
    pub year: u16,
    pub month: u8,
    pub day: u8,
}

impl Date {
    // The date, where the calendar has it.
    pub fn new(year: u16, month: u8, day: u8) -> Option<Date>
        ensures { result ≡ real_date year month day }
    {
        let date = Date { year, month, day };
        date.is_real().then_some(date)
    }

    // The date, if it is a real day of 1900 to 2099.
    #[tactic(auto, unfolding(crate::specs::Messages::candidate, crate::specs::Dates::message_day))]
    pub fn message_day(year: u32, month: u8, day: u8) -> Option<Date>
        ensures { result ≡ candidate year month day }
    {
        let year = u16::try_from(year).ok()?;
        let date = Date { year, month, day };
        date.is_message_day().then_some(date)
    }

    #[tactic(auto, unfolding(crate::specs::Dates::real))]
    pub fn is_real(self) -> bool
        ensures { result ≡ real self }
    {
        self.year <= LAST_YEAR && (1..=month_length(self.year, self.month)).contains(&self.day)
    }

    // A real day of the years 1900 to 2099, as messages and records have them.
    #[tactic(auto, unfolding(crate::specs::Dates::message_day))]
    pub fn is_message_day(self) -> bool
        ensures { result ≡ message_day self }
    {
        (FIRST_MESSAGE_YEAR..=LAST_MESSAGE_YEAR).contains(&self.year) && self.is_real()
    }
}

impl fmt::Display for Date {
    ghost output = { λ d. Some (date_text d) };

    fn fmt<W: fmt::Write>(&self, f: &mut fmt::Formatter<W>) -> fmt::Result {
        let Date { year, month, day } = *self;
        write!(f, "{year:04}-{month:02}-{day:02}")
    }
}

pub fn is_leap(year: u16) -> bool
    ensures { result ≡ leap year }
{
    year % 4 == 0 && (year % 100 != 0 || year % 400 == 0)
}

// The days of the month, 0 where there is no such month.
#[tactic(auto, unfolding(crate::specs::Dates::month_length))]
pub fn month_length(year: u16, month: u8) -> u8
    ensures value { result ≡ month_length year month }
    ensures valid { result ≤ 31 }
{
    match month {
        2 => { if is_leap(year) { 29 } else { 28 } }
        4 | 6 | 9 | 11 => 30,
        1 | 3 | 5 | 7 | 8 | 10 | 12 => 31,
        _ => 0,
    }
}

// The days of all years before.
#[tactic(auto, using(crate::proofs::Counting::years_closed))]
fn days_before(year: u16) -> u32
    ensures { result ≡ years_before year }
{
    let years = u32::from(year);
    365 * years + (years + 3) / 4 - (years + 99) / 100 + (years + 399) / 400
}

// The days of a year before a month, all of them where the month is none of the twelve but a later one.
#[tactic(auto, using(crate::proofs::Counting::months_closed))]
fn days_before_month(year: u16, month: u8) -> u32
    ensures { result ≡ months_before year month }
{
    let month = u32::from(month.clamp(1, 13));
    // The months before, if February had 30 days.
    let days = (367 * month - 362) / 12;
    let short = if month <= 2 {
        0
    } else if is_leap(year) {
        1
    } else {
        2
    };
    days - short
}

// The number of a day: 1 January of the year 0 has the number 1.
#[tactic(auto, using(crate::proofs::Counting::years_most, crate::proofs::Counting::months_most))]
pub fn day_number(date: Date) -> u32
    ensures { result ≡ number date }
{
    days_before(date.year) + days_before_month(date.year, date.month) + u32::from(date.day)
}

// The year in which the day of this number lies.
fn year_of(ordinal: u32) -> u16
    requires { (1 ≤ ordinal) × (ordinal ≤ 3652425) }
    ensures after { years_before result < ordinal }
    ensures before { ordinal ≤ years_before (result + 1) }
    ensures valid { result ≤ 9999 }
{
    // 400 years have 146,097 days, and this misses the year by one at most.
    let near = ((ordinal - 1) * 400 / 146_097) as u16;
    if days_before(near) >= ordinal {
        near - 1
    } else if days_before(near + 1) >= ordinal {
        near
    } else {
        near + 1
    }
}

// The day of a number, where the calendar has one.
pub fn date_of(ordinal: u32) -> Option<Date>
    ensures { result ≡ date_of ordinal }
{
    if !(1..=LAST_DAY).contains(&ordinal) {
        return None;
    }
    let year = year_of(ordinal);
    let mut day = ordinal - days_before(year);
    for month in 1..=12u8 {
        let length = u32::from(month_length(year, month));
        if day <= length {
            return Some(Date {
                year,
                month,
                day: day as u8,
            });
        }
        day -= length;
    }
    None
}

// Next day, next number; day and number give each other back; the order of days is that of numbers.
pub fn day_numbers()
    ensures { DayNumbers }
{}
