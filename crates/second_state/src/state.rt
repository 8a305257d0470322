// What a message holds between its items, and the observation time that follows from it.
use second_time::days::Day;
use second_time::moves::{Move, Reading};
use second_time::zones::Zone;
use second_time::{dates, moves, zones};

// The units in which values are sent.
#[derive(Clone, Copy, Debug, PartialEq, Eq)]
pub enum Units {
    English,
    Si,
}

#[derive(Clone, Copy)]
pub struct State {
    pub century: u8,
    pub year: u8,
    pub month: u8,
    pub day: u8,
    pub hour: u8,
    pub minute: u8,
    pub second: u8,
    pub created: Option<Reading>,
    pub units: Units,
    pub variable: Option<u16>,
    pub relative: Option<Move>,
    pub interval: Option<Move>,
}

// The state at an opening with a date, at an hour.
pub fn opened(date: Day, hour: u8) -> State {
    State {
        century: (date.year / 100).min(99) as u8,
        year: (date.year % 100) as u8,
        month: date.month,
        day: date.day,
        hour,
        minute: 0,
        second: 0,
        created: None,
        units: Units::English,
        variable: None,
        relative: None,
        interval: None,
    }
}

fn perhaps_moved(from: Reading, by: Option<Move>, times: u64) -> Option<Reading> {
    let Some(by) = by else {
        return Some(from);
    };
    let count = by.count.checked_mul(i64::try_from(times).ok()?)?;
    moves::moved(from, Move { count, ..by })
}

// The observation time in UTC of a step, which is 0 but in series.
pub fn observed(state: State, zone: Zone, step: u64) -> Option<Reading> {
    let date = dates::joined(state.century, state.year, state.month, state.day);
    let local = zones::reading(date, state.hour, state.minute, state.second)?;
    let hours = zones::hours_behind(zone, local);
    let shifted = perhaps_moved(local, state.relative, 1)?;
    let reached = if step == 0 {
        shifted
    } else {
        perhaps_moved(shifted, state.interval, step)?
    };
    zones::in_utc(reached, u64::from(hours))
}
