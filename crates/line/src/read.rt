// The record of a listing line.
ghost use Rattle.std.specs.Prelude.{◌≡◌, length, Some, MatchOption, ◌≢◌};
ghost use Rattle.line.specs.Lines.{line as line_of};
ghost use Rattle.record.specs.Entries.{Entry, entry as entry_of};
ghost use Rattle.record.specs.Validity.{Valid};
ghost use Rattle.std.specs.Option.{option_map};

use crate::columns::{minute_in, name_in, parameter_in, second_in, series_in};
use crate::write::line_of;
use crate::{LINE_LENGTH, starts};
use quantity::qualifier::Qualifier;
use record::record::Record;
use values::column::parse_value;

// The record of a line that is one, of another perhaps some record.
fn fields_in(line: &[u8]) -> Option<Record>
    requires { length line.now ≡ 80 }
    ensures { (e : Entry) → Valid e → line_of e ≡ line.now → option_map entry_of result ≡ Some e }
{
    let station = name_in(&line[starts::STATION..starts::STATION + 8])?;
    let observed = second_in(&line[starts::OBSERVED..starts::OBSERVED + 14])?;
    let created = minute_in(&line[starts::CREATED..starts::CREATED + 12]);
    let parameter = parameter_in(
        &line[starts::CODE..starts::CODE + 7],
        &line[starts::DURATION..starts::DURATION + 4],
    )?;
    let value = parse_value(&line[starts::VALUE..starts::VALUE + 14])?;
    let qualifier = Qualifier::new(line[starts::QUALIFIER])?;
    let revised = line[starts::REVISED] == b'1';
    let series = series_in(line[starts::SERIES]);
    let source = name_in(&line[starts::SOURCE..starts::SOURCE + 8]);
    Some(Record {
        station,
        observed,
        created,
        parameter,
        value,
        qualifier,
        revised,
        series,
        source,
    })
}

// The record whose line this is, none where there is no such record.
pub fn record_of(line: &[u8]) -> Option<Record>
    ensures { MatchOption result ((e : Entry) → Valid e → line_of e ≢ line.now) (λ x. line_of (entry_of x) ≡ line.now) }
{
    if line.len() != LINE_LENGTH {
        return None;
    }
    let record = fields_in(line)?;
    if line == line_of(&record).as_slice() {
        Some(record)
    } else {
        None
    }
}
