// The fields of a line, one word after another.
ghost use Rattle.std.specs.Prelude.{◌≡◌, ◌+◌, ◌^◌, ◌<◌, ◌≤◌, length, Option, IfOk};
ghost use Rattle.calendar.specs.Messages.{message_date};
ghost use Rattle.messages.specs.Ways.{map_ok};
ghost use Rattle.reader.specs.Lines.{line_piece};
ghost use Rattle.record.specs.Entries.{name as name_of};
ghost use Rattle.record.specs.Stations.{station_of};
ghost use Rattle.refusals.specs.declared.MessageRefusal.TheVariants as why;
ghost use Rattle.openings.specs.Openings.{field, word_at, zone_field};

use calendar::date::Date;
use calendar::message::message_date;
use daylight::zone::{Zone, zone_of};
use items::next_word;
use reader::Line;
use record::station::Station;
use refusals::{Fault, MessageRefusal};

// A word of a line, and where in the line it begins.
#[derive(Clone, Copy)]
struct Found<'a> {
    word: &'a [u8],
    start: usize,
}

// A line that ends below place 2^64, and how far its fields have been read.
#[derive(Clone, Copy)]
pub struct Fields<'a> {
    pub line: Line<'a>,
    pub from: usize,
    ghost within: { from ≤ length line.part.now },
    ghost fits: { line.place + length line.part.now < 2 ^ 64 },
}

impl<'a> Fields<'a> {
    // The next word; a missing one is refused at the line's end.
    fn word(&mut self, missing: MessageRefusal) -> Result<Found<'a>, Fault>
        ensures value { map_ok (λ w. (w.word.now, (w.start, self.new.from))) result ≡ word_at missing (line_piece self.old.line) self.old.from }
        ensures within { IfOk result (λ w. w.start ≤ length self.old.line.part.now) }
        ensures same { self.new.line ≡ self.old.line }
    {
        let line = self.line;
        let (_, rest) = line.part.split_at(self.from);
        let Some(word) = next_word(rest) else {
            return Err(missing.at(line.place + line.part.len()));
        };
        let start = self.from + word.lead;
        self.from = start + word.part.len();
        Ok(Found {
            word: word.part,
            start,
        })
    }

    // The next word as `read` takes it; one that it does not take is refused at its first byte.
    fn field<T: Drop, F: Fn(&[u8]) -> Option<T>>(
        &mut self,
        refusal: MessageRefusal,
        read: F,
    ) -> Result<T, Fault>
        requires { F.IsAlwaysCallable read }
        ensures value { (r : Option T) × ((map_ok (λ x. (x, self.new.from)) result ≡ field refusal (λ _. r) (line_piece self.old.line) self.old.from) × IfOk (word_at refusal (line_piece self.old.line) self.old.from) (λ w. (b : _) × (F.post read b r × (b.now ≡ w.0)))) }
        ensures same { self.new.line ≡ self.old.line }
    {
        let line = self.line;
        let found = self.word(refusal)?;
        read(found.word).ok_or(refusal.at(line.place + found.start))
    }

    pub fn station(&mut self) -> Result<Station, Fault>
        ensures value { map_ok (λ x. (name_of x, self.new.from)) result ≡ field why.Station station_of (line_piece self.old.line) self.old.from }
        ensures same { self.new.line ≡ self.old.line }
    {
        self.field(MessageRefusal::Station, Station::new)
    }

    pub fn date(&mut self, today: Date) -> Result<Date, Fault>
        ensures value { map_ok (λ x. (x, self.new.from)) result ≡ field why.Date (λ w. message_date w today) (line_piece self.old.line) self.old.from }
        ensures same { self.new.line ≡ self.old.line }
    {
        self.field(MessageRefusal::Date, |word| message_date(word, today))
    }

    // The zone, if the next word is a zone code, else UTC.
    pub fn zone(&mut self) -> Zone
        ensures value { (result, self.new.from) ≡ zone_field self.old.line.part.now self.old.from }
        ensures same { self.new.line ≡ self.old.line }
    {
        let line = self.line;
        let (_, rest) = line.part.split_at(self.from);
        if let Some(word) = next_word(rest) {
            if let Some(zone) = zone_of(word.part) {
                self.from = self.from + word.lead + word.part.len();
                return zone;
            }
        }
        Zone::UTC
    }
}
