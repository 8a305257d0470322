// The daylight rules at their change days.
use calendar::date::Date;
use daylight::law_rule::LawRule;
use daylight::list_rule::{Change, ListRule};
use daylight::rule::Rule;
use daylight::span::MonthDay;
use std::io;

// Year, month, day, second.
type Case = (u16, u8, u8, u32);

const LAW: [Case; 17] = [
    (2024, 1, 1, 43_200),
    (2024, 3, 3, 43_200),
    (2024, 3, 9, 86_400),
    (2024, 3, 10, 7199),
    (2024, 3, 10, 7200),
    (2024, 7, 4, 43_200),
    (2024, 11, 3, 7199),
    (2024, 11, 3, 7200),
    (2021, 3, 14, 7199),
    (2021, 3, 14, 7200),
    (2021, 11, 7, 7199),
    (2021, 11, 7, 7200),
    (2026, 3, 8, 7199),
    (2026, 3, 8, 7200),
    (2026, 11, 1, 7199),
    (2026, 11, 1, 7200),
    (2024, 12, 25, 0),
];

fn lines<R: Rule>(rt: &HostRuntime, name: &str, rule: &R, cases: &[Case]) -> io::Result<()> {
    for &(year, month, day, second) in cases {
        let daylight = rule.is_daylight((Date { year, month, day }, second));
        println!(rt; "{name} {year} {month} {day} {second}: {daylight}")?;
    }
    Ok(())
}

fn change(year: u16, first: (u8, u8), last: (u8, u8)) -> Change {
    Change {
        year,
        first: MonthDay {
            month: first.0,
            day: first.1,
        },
        last: MonthDay {
            month: last.0,
            day: last.1,
        },
    }
}

const LIST: [Case; 8] = [
    (2024, 2, 1, 0),
    (2024, 4, 7, 7199),
    (2024, 4, 7, 7200),
    (2024, 10, 27, 7199),
    (2024, 10, 27, 7200),
    (2023, 7, 1, 43_200),
    (2025, 7, 1, 43_200),
    (2025, 12, 1, 43_200),
];

// 2024 is listed twice, 2023 not at all, and the days of 2025 are the wrong way round.
fn list(rt: &HostRuntime) -> io::Result<()> {
    let changes = [
        change(2024, (4, 7), (10, 27)),
        change(2024, (1, 1), (12, 31)),
        change(2025, (10, 1), (4, 1)),
    ];
    let rule = ListRule { changes: &changes };
    lines(rt, "list", &rule, &LIST)
}

pub fn all(rt: &HostRuntime) -> io::Result<()> {
    lines(rt, "law", &LawRule, &LAW)?;
    list(rt)
}
