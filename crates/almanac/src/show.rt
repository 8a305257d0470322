// How a reading is shown.
use calendar::date::Date;
use std::io;

pub fn reading(rt: &HostRuntime, found: Option<(Date, u32)>) -> io::Result<()> {
    match found {
        Some((date, second)) => println!(rt; "{date} {second}"),
        None => println!(rt; "none"),
    }
}
