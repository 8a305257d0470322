// Years, months and days of the calendar.
use crate::show;
use calendar::date::{Date, date_of, day_number, is_leap, month_length};
use std::io;

// Year, month, day: a row of a table is shorter as a tuple than as a Date.
type Day = (u16, u8, u8);

const YEARS: [u16; 5] = [1900, 2000, 2023, 2024, 2100];

const MONTHS: [(u16, u8); 6] = [
    (1900, 2),
    (2000, 2),
    (2024, 4),
    (2024, 12),
    (2024, 13),
    (2024, 0),
];

const DAYS: [Day; 9] = [
    (0, 1, 1),
    (0, 12, 31),
    (1, 1, 1),
    (1900, 2, 28),
    (1900, 3, 1),
    (1970, 1, 1),
    (2000, 2, 29),
    (2000, 3, 1),
    (9999, 12, 31),
];

const NUMBERS: [u32; 9] = [
    0, 1, 366, 367, 694_021, 719_529, 730_545, 3_652_425, 3_652_426,
];

const CLAIMED: [Day; 9] = [
    (1900, 2, 29),
    (2000, 2, 29),
    (2024, 2, 29),
    (2024, 2, 30),
    (2024, 4, 31),
    (2024, 13, 1),
    (2024, 1, 0),
    (9999, 12, 31),
    (10000, 1, 1),
];

fn leap_years(rt: &HostRuntime) -> io::Result<()> {
    for year in YEARS {
        let leap = is_leap(year);
        println!(rt; "leap {year}: {leap}")?;
    }
    Ok(())
}

fn lengths(rt: &HostRuntime) -> io::Result<()> {
    for (year, month) in MONTHS {
        let length = month_length(year, month);
        println!(rt; "length {year} {month}: {length}")?;
    }
    Ok(())
}

fn numbers(rt: &HostRuntime) -> io::Result<()> {
    for (year, month, day) in DAYS {
        let number = day_number(Date { year, month, day });
        println!(rt; "number {year} {month} {day}: {number}")?;
    }
    Ok(())
}

fn dates(rt: &HostRuntime) -> io::Result<()> {
    for number in NUMBERS {
        print!(rt; "day {number}: ")?;
        show::date(rt, date_of(number))?;
    }
    Ok(())
}

fn real_dates(rt: &HostRuntime) -> io::Result<()> {
    for (year, month, day) in CLAIMED {
        print!(rt; "date {year} {month} {day}: ")?;
        show::date(rt, Date::new(year, month, day))?;
    }
    Ok(())
}

pub fn all(rt: &HostRuntime) -> io::Result<()> {
    leap_years(rt)?;
    lengths(rt)?;
    numbers(rt)?;
    dates(rt)?;
    real_dates(rt)
}
