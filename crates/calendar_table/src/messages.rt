// Dates of messages under a current date.
use crate::show;
use calendar::date::Date;
use calendar::message::message_date;
use std::io;

// The field, and the current year, month and day.
type Case = (&'static str, u16, u8, u8);

const FIELDS: [Case; 23] = [
    ("0229", 2024, 6, 1),
    ("0229", 2023, 6, 1),
    ("0229", 2021, 6, 1),
    ("0229", 2018, 1, 1),
    ("0101", 2023, 12, 31),
    ("1231", 2024, 1, 1),
    ("0701", 2023, 12, 31),
    ("1231", 1900, 1, 1),
    ("0101", 2099, 12, 31),
    ("0431", 2024, 6, 1),
    ("0601", 1850, 6, 1),
    ("240229", 2024, 6, 1),
    ("000229", 1940, 6, 1),
    ("000229", 1990, 6, 1),
    ("500101", 2000, 6, 1),
    ("490101", 2000, 6, 1),
    ("20991231", 2024, 6, 1),
    ("19000101", 2024, 6, 1),
    ("21000101", 2024, 6, 1),
    ("18991231", 2024, 6, 1),
    ("20230229", 2024, 6, 1),
    ("2024023A", 2024, 6, 1),
    ("24022", 2024, 6, 1),
];

pub fn all(rt: &HostRuntime) -> io::Result<()> {
    for (field, year, month, day) in FIELDS {
        print!(rt; "{field} on {year} {month} {day}: ")?;
        show::date(
            rt,
            message_date(field.as_bytes(), Date { year, month, day }),
        )?;
    }
    Ok(())
}
