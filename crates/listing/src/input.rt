// The first line of the input, the current date that it names, and the text behind it.
ghost use Rattle.listing.specs.Names.{Names};
ghost use Rattle.reader.specs.Lines.{FirstLine};

use calendar::date::Date;
use calendar::message::message_date;
use reader::Lines;

const NO_DAY: Date = Date {
    year: 0,
    month: 0,
    day: 0,
};

// The first line and the text behind its end.
pub fn split_line(input: &[u8]) -> (&[u8], &[u8])
    ensures { FirstLine input.now result.0.now result.1.now }
{
    let mut lines = Lines::new(input);
    match lines.next_line() {
        Some(line) => (line.part, lines.rest()),
        None => (&[], &[]),
    }
}

// The current date of a line ccyymmdd; any other line is a date that is no day.
pub fn date_of(line: &[u8]) -> Date
    ensures { Names line.now result }
{
    if line.len() == 8 {
        message_date(line, NO_DAY).unwrap_or(NO_DAY)
    } else {
        NO_DAY
    }
}
