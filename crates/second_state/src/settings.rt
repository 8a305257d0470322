// D items, which change the state of a message.
use crate::state::{State, Units};
use second_time::days::Day;
use second_time::moves::{Move, Reading, Unit};
use second_time::zones::Zone;
use second_time::{dates, zones};

// The groups of two digits of a time item, each of which may begin it.
#[derive(Clone, Copy, Debug, PartialEq, Eq)]
enum Group {
    Century,
    Year,
    Month,
    Day,
    Hour,
    Minute,
    Second,
}

impl Group {
    // The first group of a time item, by its kind letter.
    fn named(kind: u8) -> Option<Group> {
        match kind {
            b'T' => Some(Group::Century),
            b'Y' => Some(Group::Year),
            b'M' => Some(Group::Month),
            b'D' => Some(Group::Day),
            b'H' => Some(Group::Hour),
            b'N' => Some(Group::Minute),
            b'S' => Some(Group::Second),
            _ => None,
        }
    }

    fn next(self) -> Option<Group> {
        match self {
            Group::Century => Some(Group::Year),
            Group::Year => Some(Group::Month),
            Group::Month => Some(Group::Day),
            Group::Day => Some(Group::Hour),
            Group::Hour => Some(Group::Minute),
            Group::Minute => Some(Group::Second),
            Group::Second => None,
        }
    }
}

// The time groups that an item gives.
#[derive(Clone, Copy, Default)]
pub struct Groups {
    pub century: Option<u8>,
    pub year: Option<u8>,
    pub month: Option<u8>,
    pub day: Option<u8>,
    pub hour: Option<u8>,
    pub minute: Option<u8>,
    pub second: Option<u8>,
}

#[derive(Clone, Copy)]
pub enum Setting {
    Time(Groups),
    Relative(Move),
    Interval(Move),
    Created(Reading),
    Units(Units),
    Variable(Option<u16>),
}

impl Groups {
    // The groups with one more, if it is within its bounds.
    fn with(self, group: Group, n: u8) -> Option<Groups> {
        let mut more = self;
        match (group, n) {
            (Group::Century, _) => more.century = Some(n),
            (Group::Year, _) => more.year = Some(n),
            (Group::Month, 1..=12) => more.month = Some(n),
            (Group::Day, 1..=31) => more.day = Some(n),
            (Group::Hour, 0..=24) => more.hour = Some(n),
            (Group::Minute, 0..=59) => more.minute = Some(n),
            (Group::Second, 0..=59) => more.second = Some(n),
            _ => return None,
        }
        Some(more)
    }
}

fn read_groups(rest: &[u8], first: Group, today: Day) -> Option<Groups> {
    if rest.is_empty() {
        return None;
    }
    let mut groups = Groups::default();
    let mut group = Some(first);
    for digits in rest.chunks(2) {
        let given = group?;
        groups = groups.with(given, dates::two_digits(digits, 0)?)?;
        group = given.next();
    }
    if group == Some(Group::Minute) {
        groups.minute = Some(0);
    }
    if group == Some(Group::Minute) || group == Some(Group::Second) {
        groups.second = Some(0);
    }
    if first == Group::Year {
        groups.century = Some(dates::century(today, groups.year?));
    }
    Some(groups)
}

// A unit, perhaps a sign, and one or two digits.
fn read_move(rest: &[u8]) -> Option<Move> {
    let (letter, signed) = rest.split_first()?;
    let unit = Unit::named(*letter)?;
    // The sign is put aside while the digits are read, as both signs share what follows.
    let (back, digits) = match signed {
        [b'-', digits @ ..] => (true, digits),
        [b'+', digits @ ..] => (false, digits),
        _ => (false, signed),
    };
    let size = match digits {
        [ones @ b'0'..=b'9'] => *ones - b'0',
        [_, _] => dates::two_digits(digits, 0)?,
        _ => return None,
    };
    let count = i64::from(size);
    Some(Move {
        unit,
        count: if back { -count } else { count },
    })
}

fn read_creation(rest: &[u8], today: Day, zone: Zone) -> Option<Reading> {
    let dated: usize = match rest.len() {
        6 | 8 => 4,
        10 => 6,
        12 => 8,
        _ => return None,
    };
    let (date, time) = rest.split_at_checked(dated)?;
    let date = dates::read_date(today, date)?;
    let hour = dates::two_digits(time, 0)?;
    let minute = if time.len() == 2 {
        0
    } else {
        dates::two_digits(time, 2)?
    };
    let local = zones::reading(date, hour, minute, 0)?;
    zones::in_utc(local, u64::from(zones::hours_behind(zone, local)))
}

// The number of a variable duration, which Z clears.
fn read_variable(rest: &[u8]) -> Option<Setting> {
    if rest == b"Z".as_slice() {
        return Some(Setting::Variable(None));
    }
    let (unit, digits) = rest.split_first()?;
    let base: u16 = match *unit {
        b'N' => 0,
        b'H' => 1000,
        b'D' => 2000,
        b'M' => 3000,
        b'Y' => 4000,
        b'E' => 6000,
        _ => return None,
    };
    if digits.len() != 2 {
        return None;
    }
    let number = base + u16::from(dates::two_digits(digits, 0)?);
    Some(Setting::Variable(Some(number)))
}

fn read_units(rest: &[u8]) -> Option<Setting> {
    match rest {
        b"E" => Some(Setting::Units(Units::English)),
        b"S" => Some(Setting::Units(Units::Si)),
        _ => None,
    }
}

// What an item that begins with D sets.
pub fn read_setting(item: &[u8], today: Day, zone: Zone) -> Option<Setting> {
    let kind = item.get(1).copied()?;
    let rest = item.get(2..)?;
    if let Some(first) = Group::named(kind) {
        return read_groups(rest, first, today).map(Setting::Time);
    }
    match kind {
        b'R' => read_move(rest).map(Setting::Relative),
        b'I' => read_move(rest).map(Setting::Interval),
        b'C' => read_creation(rest, today, zone).map(Setting::Created),
        b'U' => read_units(rest),
        b'V' => read_variable(rest),
        _ => None,
    }
}

fn timed(state: State, groups: Groups) -> State {
    State {
        century: groups.century.unwrap_or(state.century),
        year: groups.year.unwrap_or(state.year),
        month: groups.month.unwrap_or(state.month),
        day: groups.day.unwrap_or(state.day),
        hour: groups.hour.unwrap_or(state.hour),
        minute: groups.minute.unwrap_or(state.minute),
        second: groups.second.unwrap_or(state.second),
        ..state
    }
}

pub fn applied(state: State, setting: Setting) -> State {
    match setting {
        Setting::Time(groups) => timed(state, groups),
        Setting::Relative(by) => State {
            relative: Some(by),
            ..state
        },
        Setting::Interval(by) => State {
            interval: Some(by),
            ..state
        },
        Setting::Created(at) => State {
            created: Some(at),
            ..state
        },
        Setting::Units(units) => State { units, ..state },
        Setting::Variable(variable) => State { variable, ..state },
    }
}
