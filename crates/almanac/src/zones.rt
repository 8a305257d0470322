// Zone words and readings in UTC under the law rule.
use crate::show;
use calendar::date::Date;
use daylight::law_rule::LawRule;
use daylight::utc::utc_of;
use daylight::zone::zone_of;
use std::io;

fn utc(word: &str, reading: (Date, u32)) -> Option<(Date, u32)> {
    let time = utc_of(&LawRule, zone_of(word.as_bytes())?, reading)?;
    Some((time.date, time.second))
}

// The zone's word; year, month, day, second.
type Case = (&'static str, u16, u8, u8, u32);

const READINGS: [Case; 26] = [
    ("Z", 2024, 7, 15, 43_200),
    ("A", 2024, 1, 15, 43_200),
    ("E", 2024, 1, 15, 43_200),
    ("C", 2024, 1, 15, 43_200),
    ("M", 2024, 1, 15, 43_200),
    ("P", 2024, 1, 15, 43_200),
    ("L", 2024, 1, 15, 43_200),
    ("C", 2024, 7, 15, 43_200),
    ("CS", 2024, 7, 15, 43_200),
    ("CD", 2024, 1, 15, 43_200),
    ("ZS", 2024, 1, 15, 43_200),
    ("X", 2024, 1, 15, 43_200),
    ("EST", 2024, 1, 15, 43_200),
    ("", 2024, 1, 15, 43_200),
    ("C", 2024, 3, 10, 7199),
    ("C", 2024, 3, 10, 7200),
    ("C", 2024, 11, 3, 7199),
    ("C", 2024, 11, 3, 7200),
    ("L", 2024, 12, 31, 86_400),
    ("PS", 2024, 2, 28, 72_000),
    ("Z", 2000, 2, 29, 86_400),
    ("CS", 2099, 12, 31, 64_799),
    ("CS", 2099, 12, 31, 64_800),
    ("CS", 1899, 12, 31, 64_799),
    ("CS", 1899, 12, 31, 64_800),
    ("Z", 2023, 2, 29, 0),
];

pub fn all(rt: &HostRuntime) -> io::Result<()> {
    for (word, year, month, day, second) in READINGS {
        print!(rt; "{word} {year} {month} {day} {second}: ")?;
        show::reading(rt, utc(word, (Date { year, month, day }, second)))?;
    }
    Ok(())
}
