// Zones, the daylight law and UTC.
ghost use Rattle.std.specs.Prelude.{◌≡◌, ◌+◌, ◌-◌, ◌≤◌};
ghost use Rattle.second_time.specs.Zones.{zone_of};
ghost use Rattle.second_time.specs.declared.zones.Daylight.TheVariants.{Never, Always};

use crate::days::Day;
use crate::moves::{Move, Reading, Unit};
use crate::{days, moves};

// Hours behind UTC in standard time, and whether daylight time counts: never, always or by the law.
#[derive(Clone, Copy)]
pub struct Zone {
    pub behind: u8,
    pub daylight: Daylight,
}

#[derive(Clone, Copy, Debug, PartialEq, Eq)]
pub enum Daylight {
    Never,
    Always,
    ByLaw,
}

pub const UTC: Zone = Zone {
    behind: 0,
    daylight: Daylight::Never,
};

// The zone that a word names.
pub fn named(word: &[u8]) -> Option<Zone>
    ensures { result ≡ zone_of word.now }
{
    let (letter, daylight) = match word {
        b"Z" => return Some(UTC),
        [letter] => (*letter, Daylight::ByLaw),
        [letter, b'S'] => (*letter, Daylight::Never),
        [letter, b'D'] => (*letter, Daylight::Always),
        _ => return None,
    };
    let behind = match letter {
        b'A' => 4,
        b'E' => 5,
        b'C' => 6,
        b'M' => 7,
        b'P' => 8,
        b'L' => 9,
        _ => return None,
    };
    Some(Zone { behind, daylight })
}

pub fn lawful_daylight(at: Reading) -> bool {
    let year = at.date.year;
    let begins = (3, days::first_sunday(year, 3).saturating_add(7), 7_200);
    let ends = (11, days::first_sunday(year, 11), 7_200);
    let here = (at.date.month, at.date.day, at.second);
    begins <= here && here < ends
}

// The hours behind UTC at a local reading.
pub fn hours_behind(zone: Zone, at: Reading) -> u8
    ensures never { zone.daylight ≡ Never → result ≡ zone.behind }
    ensures always { zone.daylight ≡ Always → result ≡ zone.behind - 1 }
    ensures saved { (result ≤ zone.behind) × (zone.behind ≤ result + 1) }
{
    let saved = match zone.daylight {
        Daylight::Never => false,
        Daylight::Always => true,
        Daylight::ByLaw => lawful_daylight(at),
    };
    if saved {
        zone.behind.saturating_sub(1)
    } else {
        zone.behind
    }
}

// The time in UTC of a local reading that many hours behind, if it is of 1900 to 2099.
pub fn in_utc(local: Reading, hours: u64) -> Option<Reading> {
    let unit = Unit::Hour;
    let count = i64::try_from(hours).ok()?;
    moves::moved(local, Move { unit, count }).filter(|utc| days::is_counted(utc.date))
}

// A reading of a date and a time of the day, if it is one.
pub fn reading(date: Day, hour: u8, minute: u8, second: u8) -> Option<Reading> {
    let past = hour > 24
        || minute > 59
        || second > 59
        || (hour == 24 && (minute > 0 || second > 0));
    if past || !days::is_counted(date) {
        return None;
    }
    Some(Reading {
        date,
        second: u64::from(hour) * 3600 + u64::from(minute) * 60 + u64::from(second),
    })
}
