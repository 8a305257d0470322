// Days of the week, and the Sundays of months.
use calendar::date::Date;
use calendar::weekday::{Weekday, nth_sunday};
use std::io;

fn name_of(weekday: Weekday) -> &'static str {
    match weekday {
        Weekday::Sunday => "Sunday",
        Weekday::Monday => "Monday",
        Weekday::Tuesday => "Tuesday",
        Weekday::Wednesday => "Wednesday",
        Weekday::Thursday => "Thursday",
        Weekday::Friday => "Friday",
        Weekday::Saturday => "Saturday",
    }
}

// Year, month, day.
const DAYS: [(u16, u8, u8); 14] = [
    (0, 1, 1),
    (1, 1, 1),
    (1582, 10, 15),
    (1900, 1, 1),
    (1900, 2, 28),
    (1900, 3, 1),
    (1999, 12, 31),
    (2000, 1, 1),
    (2000, 2, 29),
    (2024, 2, 29),
    (2024, 3, 10),
    (2024, 11, 3),
    (2099, 12, 31),
    (9999, 12, 31),
];

// Year, month, which Sunday.
const SUNDAYS: [(u16, u8, u8); 20] = [
    (2024, 3, 1),
    (2024, 3, 2),
    (2024, 3, 5),
    (2024, 3, 6),
    (2024, 11, 1),
    (2024, 11, 4),
    (2024, 11, 5),
    (2026, 3, 2),
    (2026, 11, 1),
    (2021, 3, 2),
    (2021, 11, 1),
    (2015, 2, 1),
    (2015, 2, 4),
    (2015, 2, 5),
    (2004, 2, 5),
    (2024, 3, 0),
    (2024, 3, 255),
    (2024, 0, 1),
    (2024, 13, 1),
    (9999, 12, 4),
];

fn weekdays(rt: &HostRuntime) -> io::Result<()> {
    for (year, month, day) in DAYS {
        let date = Date { year, month, day };
        let name = name_of(date.weekday());
        println!(rt; "weekday {date}: {name}")?;
    }
    Ok(())
}

fn sundays(rt: &HostRuntime) -> io::Result<()> {
    for (year, month, n) in SUNDAYS {
        match nth_sunday(year, month, n) {
            Some(day) => println!(rt; "sunday {n} of {year} {month}: {day}")?,
            None => println!(rt; "sunday {n} of {year} {month}: none")?,
        }
    }
    Ok(())
}

pub fn all(rt: &HostRuntime) -> io::Result<()> {
    weekdays(rt)?;
    sundays(rt)
}
