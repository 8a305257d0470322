// The listing line of a record.
ghost use Rattle.std.specs.Prelude.{Some};
ghost use Rattle.second_listing.specs.Names.{name_text};

use second_time::moves::Reading;
use second_value::codes::Code;
use second_value::values::{Amount, Value};
use std::alloc::{AllocError, Global};
use std::fmt;
use std::fmt::Write;

// A station or a source, with blanks behind it.
#[derive(Clone, Copy, Debug, PartialEq, Eq)]
pub struct Name {
    pub signs: [u8; 8],
}

pub fn padded(word: &[u8]) -> Name {
    let mut signs = [b' '; 8];
    let kept = word.len().min(8);
    signs[..kept].copy_from_slice(&word[..kept]);
    Name { signs }
}

impl fmt::Display for Name {
    ghost output = { λ n. Some (name_text n) };

    fn fmt<W: fmt::Write>(&self, f: &mut fmt::Formatter<W>) -> fmt::Result {
        for b in self.signs {
            f.write_char(char::from(b))?;
        }
        Ok(())
    }
}

// Whether a record is of no series, the first of one, or a later one.
#[derive(Clone, Copy, Debug, PartialEq, Eq)]
pub enum Series {
    Apart = 0,
    First = 1,
    Later = 2,
}

#[derive(Clone, Copy)]
pub struct Entry {
    pub station: Name,
    pub observed: Reading,
    pub created: Option<Reading>,
    pub code: Code,
    pub duration: u16,
    pub value: Value,
    pub revised: bool,
    pub series: Series,
    pub source: Name,
}

// A time as ccyymmddhhnn. A function and no Display, as the two below: it is shown so only in a listing line.
fn minutes(heap: Global, at: Reading) -> Result<String, AllocError> {
    let year = at.date.year;
    let month = at.date.month;
    let day = at.date.day;
    let hour = at.second / 3600;
    let minute = at.second % 3600 / 60;
    format!(in heap; "{year:04}{month:02}{day:02}{hour:02}{minute:02}")
}

// An amount with four decimals.
fn decimal(heap: Global, amount: Amount) -> Result<String, AllocError> {
    let n = match amount {
        Amount::Missing => return String::from_str(heap, "-9999.0000"),
        Amount::Trace => 10,
        Amount::Number(n) => n,
    };
    let sign = if n < 0 { "-" } else { "" };
    let size = n.unsigned_abs();
    let whole = size / 10_000;
    let decimals = size % 10_000;
    format!(in heap; "{sign}{whole}.{decimals:04}")
}

// The 79 columns before the line feed.
pub fn listed(heap: Global, e: Entry) -> Result<String, AllocError> {
    let station = e.station;
    let observed = minutes(heap, e.observed)?;
    let second = e.observed.second % 60;
    let created = match e.created {
        Some(at) => minutes(heap, at)?,
        None => String::new(heap),
    };
    let code = e.code;
    let duration = e.duration;
    let amount = decimal(heap, e.value.amount)?;
    let qualifier = char::from(e.value.qualifier);
    let revision = u8::from(e.revised);
    let series = e.series as u8;
    let source = e.source;
    format!(in heap;
        "{station} {observed}{second:02} {created:12} {code} {duration:04} {amount:>14} {qualifier} {revision} {series} {source}"
    )
}
