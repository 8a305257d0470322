// Texts for decoders, good and damaged, each with a current date and a room for records. The outcome
// of each was worked out by hand from the rules, and stands with the text.
#![tactic(auto)]

mod damage;
mod form;
mod offices;
mod settings;
mod structure;
mod tables;
mod times;
mod values;
mod worked;

pub use damage::{Harm, damaged, harm_at};
pub use form::{Case, Cases, read_list};

// The lists of cases, each in the form that `read_list` reads: the worked examples of the rules, and
// messages as river offices send them.
pub static EXAMPLES: [&str; 2] = [worked::WORKED, offices::OFFICES];

// And many short cases of each rule.
pub static TRIALS: [&str; 5] = [
    structure::STRUCTURE,
    tables::TABLES,
    times::TIMES,
    settings::SETTINGS,
    values::VALUES,
];
