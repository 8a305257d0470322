// A table of records, in slots that the caller lent, as a sink.
ghost use Rattle.std.specs.Prelude.{map};
ghost use Rattle.record.specs.Entries.{entry as entry_of};
ghost use Rattle.sink.specs.Logs.{log};
ghost use Rattle.sink.specs.Tables.{Grown, all_valid, grown_ties};
ghost use Rattle.slots.specs.Lists.{held, slots_room};

use crate::sinks::Sink;
use record::record::Record;
use slots::list::{Full, Slots};

impl<'a> Sink for Slots<'a, Record> {
    ghost holds = { λ t. log (map entry_of (held t)) (slots_room t) };

    ghost valid = { λ t. all_valid (held t) };

    ghost frame = { Grown };

    ghost ties = { grown_ties };

    fn put(&mut self, record: Record) -> Result<(), Full> {
        self.push(record)
    }

    fn count(&self) -> usize {
        self.len()
    }

    fn room(&self) -> usize {
        Slots::room(self)
    }

    fn read_back(&self, place: usize) -> Option<Record> {
        self.get(place)
    }
}
