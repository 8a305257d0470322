// Laws of listing lines.
ghost use Rattle.std.specs.Prelude.{◌≡◌, Some};
ghost use Rattle.line.specs.Examples.{ExampleLines};
ghost use Rattle.line.specs.Laws.{Eighty, OneReading, TellsApart, TellsRecordsApart};

use crate::read::record_of;
use crate::write::line_of;
use record::record::Record;

// Lines are as long as each other, and those of two entries, or of two records, differ.
pub fn lines_differ()
    ensures long { Eighty }
    ensures apart { TellsApart }
    ensures records { TellsRecordsApart }
    ensures once { OneReading }
{}

// The line of a record gives the same record again.
pub fn read_again(record: &Record) -> Option<Record>
    ensures { result ≡ Some «record».now }
{
    record_of(&line_of(record))
}

// Two lines, written out.
pub fn example_lines()
    ensures { ExampleLines }
{}
