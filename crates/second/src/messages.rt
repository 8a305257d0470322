// The lines of a text: what begins, continues and ends a message.
ghost use Rattle.std.specs.Prelude.{◌≡◌};
ghost use Rattle.second.specs.Answers.{number_of};

use second_items::reader::{Log, Message, Mode, Reader};
use second_items::refusals::{Fault, Refusal, Trouble};
use second_listing::{Name, Series};
use second_state::state;
use second_text::lines::{Form, Kind, Letters};
use second_text::parts::Part;
use second_text::{items as pieces, lines, words};
use second_time::days::Day;
use second_time::zones::Zone;
use second_time::{dates, days, zones};
use std::alloc::{AllocError, Global};

// How a decode ends: at the end of the text, before it begins since the current date is no day that
// counts, or at a record that finds no room.
#[derive(Clone, Copy, Debug, PartialEq, Eq)]
pub enum Answer {
    Ended = 0,
    CurrentDate = 1,
    NoRoom = 14,
}

impl Answer {
    // The number by which users know it.
    pub fn number(self) -> u8
        ensures { result ≡ number_of self }
    {
        self as u8
    }
}

// What a decode gives: its answer, the listing lines without line feeds, and the faults.
#[derive(Drop)]
pub struct Outcome {
    pub answer: Answer,
    pub records: Vec<String>,
    pub faults: Vec<Fault>,
}

// The fields of an opening, and its items.
#[derive(Clone, Copy)]
struct Fields<'a> {
    name: Name,
    date: Day,
    zone: Zone,
    items: Part<'a>,
}

// The fields behind the letters.
fn read_fields(text: Part<'_>, today: Day) -> Result<Fields<'_>, Fault> {
    let (word, behind) = text.word().ok_or(Refusal::Station.at(text.end()))?;
    if !words::is_name(word.bytes) {
        return Err(Refusal::Station.at(word.place));
    }
    let name = second_listing::padded(word.bytes);
    let (word, behind) = behind.word().ok_or(Refusal::Date.at(text.end()))?;
    let date = dates::read_date(today, word.bytes).ok_or(Refusal::Date.at(word.place))?;
    let zoned = behind
        .word()
        .and_then(|(word, items)| Some((zones::named(word.bytes)?, items)));
    let (zone, items) = zoned.unwrap_or((zones::UTC, behind));
    Ok(Fields {
        name,
        date,
        zone,
        items,
    })
}

fn opened(letters: Letters, fields: Fields<'_>) -> Message {
    let hour = if fields.zone.behind == 0 { 12 } else { 24 };
    let opening = state::opened(fields.date, hour);
    Message {
        letters,
        name: fields.name,
        zone: fields.zone,
        opening,
        state: opening,
        number: 0,
        code: None,
        steps: 0,
        series: match letters.form {
            Form::Series => Series::First,
            Form::Single | Form::Table => Series::Apart,
        },
    }
}

// A line with its comments turned to blanks, if it is fit to be read.
fn readable(heap: Global, line: Part<'_>) -> Result<Vec<u8>, Trouble> {
    if lines::is_unfit(line.bytes) {
        return Err(Trouble::Found(Refusal::Unreadable.at(line.place)));
    }
    Ok(lines::uncommented(heap, line.bytes)?)
}

// Items of a message, which is open behind them.
fn take_items(reader: &mut Reader, mut message: Message, items: Part<'_>) -> Result<(), Trouble> {
    let pieces = pieces::message_items(reader.log.heap, items)?;
    for item in pieces.iter() {
        reader.take_item(&mut message, *item)?;
    }
    reader.mode = Mode::InItems(message);
    Ok(())
}

// Here and below the bytes are kept beside the part, which is lent from them.
fn take_opening(reader: &mut Reader, line: Part<'_>, letters: Letters) -> Result<(), Trouble> {
    let bytes = readable(reader.log.heap, line)?;
    let text = Part::new(bytes.as_slice(), line.place);
    let fields = read_fields(letters.behind(text), reader.today)?;
    reader.heads.clear();
    take_items(reader, opened(letters, fields), fields.items)
}

fn take_continuation(reader: &mut Reader, line: Part<'_>, from: Message) -> Result<(), Trouble> {
    let bytes = readable(reader.log.heap, line)?;
    let text = Part::new(bytes.as_slice(), line.place);
    let number = from.number.saturating_add(1);
    let refused = Refusal::Continuation.at(line.place);
    let items = words::continued(text, from.letters, number).ok_or(refused)?;
    take_items(reader, Message { number, ..from }, items)
}

fn take_station(reader: &mut Reader, line: Part<'_>, table: &Message) -> Result<(), Trouble> {
    let bytes = readable(reader.log.heap, line)?;
    let text = Part::new(bytes.as_slice(), line.place);
    let Some((word, behind)) = text.word() else {
        return Ok(());
    };
    if !words::is_name(word.bytes) {
        return Err(Trouble::Found(Refusal::Station.at(word.place)));
    }
    let station = second_listing::padded(word.bytes);
    let items = pieces::body_items(reader.log.heap, behind)?;
    reader.take_body(table, station, items.as_slice())
}

// The table that is open.
fn open_table(mode: Mode) -> Option<Message> {
    match mode {
        Mode::InItems(message) | Mode::InBody(message) => {
            Some(message).filter(|open| open.letters.form == Form::Table)
        }
        Mode::Outside | Mode::Skipping => None,
    }
}

fn take_line(reader: &mut Reader, line: Part<'_>) -> Result<(), Trouble> {
    match lines::kind_of(line) {
        Kind::Opening(letters) => {
            if open_table(reader.mode).is_some() {
                reader.faults.push(Refusal::Unfinished.at(line.place))?;
            }
            take_opening(reader, line, letters)
        }
        Kind::Continuation => match reader.mode {
            Mode::Outside => Err(Trouble::Found(Refusal::Continuation.at(line.place))),
            Mode::InItems(message) => take_continuation(reader, line, message),
            Mode::InBody(_) => Err(Trouble::Found(Refusal::Unfinished.at(line.place))),
            Mode::Skipping => Ok(()),
        },
        kind => take_other(reader, line, kind),
    }
}

// A line that neither opens nor continues a message.
fn take_other(reader: &mut Reader, line: Part<'_>, kind: Kind) -> Result<(), Trouble> {
    if let Mode::Skipping = reader.mode {
        return Ok(());
    }
    let Some(table) = open_table(reader.mode) else {
        reader.mode = Mode::Outside;
        return Ok(());
    };
    match kind {
        Kind::Plain => {
            reader.mode = Mode::InBody(table);
            take_station(reader, line, &table)
        }
        Kind::End => {
            reader.mode = Mode::Outside;
            Ok(())
        }
        _ => Err(Trouble::Found(Refusal::Unfinished.at(line.place))),
    }
}

// Reads all lines, and what follows from the last one.
fn take_all(reader: &mut Reader, text: &[u8]) -> Result<Answer, AllocError> {
    let found = lines::lines(reader.log.heap, text)?;
    for line in found.iter() {
        match take_line(reader, *line) {
            Ok(()) => {}
            Err(Trouble::Memory) => return Err(AllocError),
            Err(Trouble::Found(fault)) => {
                reader.faults.push(fault)?;
                if fault.refusal == Refusal::NoRoom {
                    return Ok(Answer::NoRoom);
                }
                reader.mode = Mode::Skipping;
            }
        }
    }
    if open_table(reader.mode).is_some() {
        reader.faults.push(Refusal::Unfinished.at(text.len()))?;
    }
    Ok(Answer::Ended)
}

// Decodes a text under the daylight law, against a current date, into room for so many records.
pub fn decode(heap: Global, text: &[u8], today: Day, room: usize) -> Result<Outcome, AllocError> {
    let log = Log {
        heap,
        room,
        records: Vec::new(heap),
    };
    let mut reader = Reader {
        today,
        mode: Mode::Outside,
        heads: Vec::new(heap),
        log,
        faults: Vec::new(heap),
    };
    let answer = if days::is_counted(today) {
        take_all(&mut reader, text)?
    } else {
        reader.faults.push(Refusal::CurrentDate.at(0))?;
        Answer::CurrentDate
    };
    let Reader { log, faults, .. } = reader;
    let Log { records, .. } = log;
    Ok(Outcome {
        answer,
        records,
        faults,
    })
}
