// A message as it is read: what its records have in common, and how far it has come. Clauses see these by `common`, `reached` and
// `turned` and not by an `impl Model`, for the reason told at `Terms`.
use daylight::zone::Zone;
use quantity::code::Code;
use reader::Form;
use record::record::Record;
use record::station::Station;
use terms::terms::Terms;

// What the records of a message, or of one line of its body, have in common.
#[derive(Clone, Copy)]
pub struct Message {
    pub form: Form,
    pub revised: bool,
    pub zone: Zone,
    pub station: Station,
    pub source: Option<Station>,
}

// How far a message has come: what its D items have set, the code that the next value takes, its steps so far, and whether one of
// them gave a record.
#[derive(Clone, Copy)]
pub struct Progress {
    pub terms: Terms,
    pub code: Option<Code>,
    pub steps: u64,
    pub begun: bool,
}

// What an item comes to.
#[derive(Clone, Copy)]
pub struct Turn {
    pub progress: Progress,
    pub record: Option<Record>,
}
