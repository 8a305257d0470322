// Days of the Gregorian calendar and their numbers, counted from the first day of the year 0.
ghost use Rattle.std.specs.Prelude.{◌≡◌};
ghost use Rattle.second_time.specs.Days.{days_of_month, is_counted, is_leap};

#[derive(Clone, Copy)]
pub struct Day {
    pub year: u16,
    pub month: u8,
    pub day: u8,
}

// The days of the years 0 to 9999.
const ALL_DAYS: u64 = 3_652_425;

pub fn is_leap(year: u16) -> bool
    ensures { result ≡ is_leap year }
{
    year % 4 == 0 && (year % 100 != 0 || year % 400 == 0)
}

#[tactic(auto, unfolding(crate::specs::Days::days_of_month))]
pub fn month_length(year: u16, month: u8) -> u8
    ensures { result ≡ days_of_month year month }
{
    match month {
        2 => { if is_leap(year) { 29 } else { 28 } }
        4 | 6 | 9 | 11 => 30,
        _ => 31,
    }
}

// Whether a date stands for a day of the years 1900 to 2099.
pub fn is_counted(d: Day) -> bool
    ensures { result ≡ is_counted d }
{
    (1900..=2099).contains(&d.year)
        && (1..=12).contains(&d.month)
        && (1..=month_length(d.year, d.month)).contains(&d.day)
}

fn days_before_year(year: u16) -> u64 {
    let y = u64::from(year);
    365 * y + (y + 3) / 4 + (y + 399) / 400 - (y + 99) / 100
}

// The days of a year before one of its months.
fn days_before_month(year: u16, month: u8) -> u64 {
    (1..month).fold(0u64, |sum, earlier| {
        sum.saturating_add(u64::from(month_length(year, earlier)))
    })
}

pub fn number(d: Day) -> u64 {
    days_before_year(d.year)
        .saturating_add(days_before_month(d.year, d.month))
        .saturating_add(u64::from(d.day))
        .saturating_sub(1)
}

// The day with a number, or none past the year 9999. A year has 365 or 366 days.
pub fn numbered(number: u64) -> Option<Day> {
    if number >= ALL_DAYS {
        return None;
    }
    let earliest = (number / 366) as u16;
    let latest = (number / 365) as u16;
    (earliest..=latest).rev().find_map(|year| within_year(
        year,
        number.checked_sub(days_before_year(year))?,
    ))
}

fn within_year(year: u16, before: u64) -> Option<Day> {
    (1..=12u8).rev().find_map(|month| {
        let earlier = before.checked_sub(days_before_month(year, month))?;
        let day = u8::try_from(earlier).ok()?.checked_add(1)?;
        Some(Day { year, month, day })
    })
}

// The first Sunday of a month, as its day.
pub fn first_sunday(year: u16, month: u8) -> u8 {
    (1..8u8)
        .find(|day| number(Day {
            year,
            month,
            day: *day,
        }) % 7
            == 1)
        .unwrap_or(7)
}
