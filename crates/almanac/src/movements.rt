// Moves of readings, each unit by its letter.
use crate::show;
use calendar::date::Date;
use instants::moves::{Move, Unit, moved};
use std::io;

// The letter of a unit in DR and DI items.
fn letter_of(unit: Unit) -> char {
    match unit {
        Unit::Second => 'S',
        Unit::Minute => 'N',
        Unit::Hour => 'H',
        Unit::Day => 'D',
        Unit::Month => 'M',
        Unit::Year => 'Y',
        Unit::MonthEnd => 'E',
    }
}

// Year, month, day, second; unit, count, times.
type Case = (u16, u8, u8, u32, Unit, i8, u64);

const MOVES: [Case; 30] = [
    (2023, 12, 31, 86_400, Unit::Second, 0, 1),
    (2023, 12, 31, 86_399, Unit::Second, 1, 1),
    (2024, 1, 1, 0, Unit::Second, -1, 1),
    (2024, 3, 10, 5400, Unit::Minute, 90, 1),
    (2024, 2, 28, 43_200, Unit::Hour, 24, 1),
    (2024, 3, 1, 86_400, Unit::Hour, -6, 5),
    (9999, 12, 31, 86_399, Unit::Second, 1, 1),
    (9999, 12, 31, 86_400, Unit::Second, 0, 1),
    (0, 1, 1, 0, Unit::Second, -1, 1),
    (2000, 1, 1, 0, Unit::Hour, 127, u64::MAX),
    (2000, 1, 1, 0, Unit::Hour, -128, u64::MAX),
    (2023, 2, 29, 0, Unit::Second, 0, 1),
    (2024, 2, 28, 86_400, Unit::Day, 1, 1),
    (2023, 2, 28, 0, Unit::Day, 1, 1),
    (2024, 1, 1, 60, Unit::Day, -1, 1),
    (1999, 12, 25, 0, Unit::Day, 10, 7),
    (2000, 6, 15, 600, Unit::Day, 1, 3_652_425),
    (2024, 1, 31, 0, Unit::Month, 1, 1),
    (2023, 1, 31, 3600, Unit::Month, 1, 1),
    (2024, 3, 31, 0, Unit::Month, -1, 1),
    (2024, 12, 15, 86_400, Unit::Month, 1, 1),
    (2024, 3, 31, 0, Unit::Month, -5, 3),
    (2024, 2, 29, 0, Unit::Year, 1, 1),
    (2024, 2, 29, 0, Unit::Year, 4, 1),
    (2000, 1, 1, 0, Unit::Year, 99, 1),
    (9999, 2, 1, 0, Unit::Year, 1, 1),
    (0, 1, 31, 0, Unit::Month, -1, 1),
    (2024, 2, 15, 0, Unit::MonthEnd, 0, 1),
    (2023, 11, 10, 0, Unit::MonthEnd, 3, 1),
    (2023, 3, 31, 7, Unit::MonthEnd, -1, 1),
];

pub fn all(rt: &HostRuntime) -> io::Result<()> {
    for (year, month, day, second, unit, count, times) in MOVES {
        let letter = letter_of(unit);
        print!(rt; "{year} {month} {day} {second} by {letter} {count} times {times}: ")?;
        let reading = (Date { year, month, day }, second);
        show::reading(rt, moved(reading, Move { unit, count }, times))?;
    }
    Ok(())
}
