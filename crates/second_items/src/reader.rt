// What the second decoder holds while it reads.
use crate::refusals::Fault;
use second_listing::{Name, Series};
use second_state::settings::Setting;
use second_state::state::State;
use second_text::lines::Letters;
use second_time::days::Day;
use second_time::zones::Zone;
use second_value::codes::Code;
use std::alloc::Global;

// Outside any message, among the items of one, among the stations of a table, or in a message that
// had a fault.
#[derive(Clone, Copy)]
pub enum Mode {
    Outside,
    InItems(Message),
    InBody(Message),
    Skipping,
}

// An item of a table's header.
#[derive(Clone, Copy)]
pub enum Head {
    Column(Code),
    Sets(Setting),
}

// A message that is open.
#[derive(Clone, Copy)]
pub struct Message {
    pub letters: Letters,
    // The station, or the source of a table.
    pub name: Name,
    pub zone: Zone,
    pub opening: State,
    pub state: State,
    // The number of its last continuation.
    pub number: u16,
    // The code of a series.
    pub code: Option<Code>,
    // The steps of a series so far, and what its next record is.
    pub steps: u64,
    pub series: Series,
}

// The records so far, as listing lines, and how many there is room for.
#[derive(Drop)]
pub struct Log {
    pub heap: Global,
    pub room: usize,
    pub records: Vec<String>,
}

#[derive(Drop)]
pub struct Reader {
    pub today: Day,
    pub mode: Mode,
    // The header of the table that is open.
    pub heads: Vec<Head>,
    pub log: Log,
    pub faults: Vec<Fault>,
}
