// A table of dates and times, one line to a case.
#![tactic(auto)]

use calendar_table::{days, messages, weekdays};
use std::io;

mod movements;
mod rules;
mod show;
mod zones;

fn main(rt: HostRuntime) -> io::Result<()> {
    days::all(&rt)?;
    weekdays::all(&rt)?;
    movements::all(&rt)?;
    messages::all(&rt)?;
    rules::all(&rt)?;
    zones::all(&rt)
}
