// The time groups of a message, as its date and its D items set them.
ghost use Rattle.std.specs.Prelude.{◌≡◌};
ghost use Rattle.ditems.specs.Groups.{smaller, with_group, zeroed, in_year, groups_at};

use calendar::date::Date;

#[derive(Clone, Copy)]
pub enum Group {
    Century,
    Year,
    Month,
    Day,
    Hour,
    Minute,
    Second,
}

#[derive(Clone, Copy)]
pub struct Groups {
    pub century: u16,
    pub year: u8,
    pub month: u8,
    pub day: u8,
    pub hour: u8,
    pub minute: u8,
    pub second: u8,
}

impl Group {
    // The group that may follow this one.
    pub fn next(self) -> Option<Group>
        ensures { result ≡ smaller self }
    {
        match self {
            Group::Century => Some(Group::Year),
            Group::Year => Some(Group::Month),
            Group::Month => Some(Group::Day),
            Group::Day => Some(Group::Hour),
            Group::Hour => Some(Group::Minute),
            Group::Minute => Some(Group::Second),
            Group::Second => None,
        }
    }
}

impl Groups {
    // The groups of a full hour on a date.
    pub fn new(date: Date, hour: u8) -> Groups
        ensures { result ≡ groups_at date hour }
    {
        Groups {
            century: date.year / 100,
            year: (date.year % 100) as u8,
            month: date.month,
            day: date.day,
            hour,
            minute: 0,
            second: 0,
        }
    }

    // These groups with one of them set, where the number suits it.
    pub fn with(self, group: Group, n: u8) -> Option<Groups>
        ensures { result ≡ with_group self group n }
    {
        match (group, n) {
            (Group::Century, _) => Some(Groups {
                century: u16::from(n),
                ..self
            }),
            (Group::Year, _) => Some(Groups { year: n, ..self }),
            (Group::Month, 1..=12) => Some(Groups { month: n, ..self }),
            (Group::Day, 1..=31) => Some(Groups { day: n, ..self }),
            (Group::Hour, ..=24) => Some(Groups { hour: n, ..self }),
            (Group::Minute, ..=59) => Some(Groups { minute: n, ..self }),
            (Group::Second, ..=59) => Some(Groups { second: n, ..self }),
            _ => None,
        }
    }

    // These groups with the smaller ones set to 0 where an hour or a minute was the last given.
    pub fn zeroed_from(self, next: Option<Group>) -> Groups
        ensures { result ≡ zeroed self next }
    {
        match next {
            Some(Group::Minute) => Groups {
                minute: 0,
                second: 0,
                ..self
            },
            Some(Group::Second) => Groups { second: 0, ..self },
            _ => self,
        }
    }

    // These groups in another year.
    pub fn in_year(self, year: u16) -> Groups
        ensures { result ≡ in_year self year }
    {
        Groups {
            century: year / 100,
            year: (year % 100) as u8,
            ..self
        }
    }
}
