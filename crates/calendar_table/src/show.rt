// How a date is shown.
use calendar::date::Date;
use std::io;

pub fn date(rt: &HostRuntime, found: Option<Date>) -> io::Result<()> {
    match found {
        Some(date) => println!(rt; "{date}"),
        None => println!(rt; "none"),
    }
}
