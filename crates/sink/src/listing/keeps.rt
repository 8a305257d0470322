// The listing as a sink.
ghost use Rattle.std.specs.Prelude.{◌≡◌, ◌*◌, ◌/◌, [], length};
ghost use Rattle.line.specs.Lines.{line};
ghost use Rattle.sink.specs.Listings.{Longer, listed, listing_valid, longer_ties};
ghost use Rattle.std.specs.List.{flat_map};

use super::Listing;
use crate::sinks::Sink;
use line::{LINE_LENGTH, line_of, record_of};
use record::record::Record;
use slots::list::Full;

impl<'a> Listing<'a> {
    // An empty listing over all of `bytes`.
    pub fn new(bytes: &'a mut [u8]) -> Listing<'a>
        ensures empty { (listed result).entries ≡ [] }
        ensures room { (listed result).room ≡ length bytes.old / 80 }
        ensures kept { result.bytes.now ≡ bytes.old }
        ensures lent { result.bytes.ghost_name ≡ bytes.entry.ghost_name }
    {
        Listing { bytes, count: 0 }
    }

    // The lines written, one after the other.
    pub fn lines(&self) -> &[u8]
        ensures { result.now ≡ flat_map line (listed self.now).entries }
    {
        &self.bytes[..self.written()]
    }

    // How many bytes the lines take.
    fn written(&self) -> usize
        ensures { result ≡ 80 * self.now.count }
    {
        LINE_LENGTH * self.count
    }
}

impl<'a> Sink for Listing<'a> {
    ghost holds = { listed };

    ghost valid = { listing_valid };

    ghost frame = { Longer };

    ghost ties = { longer_ties };

    fn put(&mut self, record: Record) -> Result<(), Full> {
        let at = self.written();
        if self.bytes.len() - at < LINE_LENGTH {
            return Err(Full);
        }
        self.bytes[at..at + LINE_LENGTH].copy_from_slice(&line_of(&record));
        self.count += 1;
        Ok(())
    }

    fn count(&self) -> usize {
        self.count
    }

    fn room(&self) -> usize {
        (self.bytes.len() - self.written()) / LINE_LENGTH
    }

    fn read_back(&self, place: usize) -> Option<Record> {
        if place >= self.count {
            return None;
        }
        let at = LINE_LENGTH * place;
        record_of(&self.bytes[at..at + LINE_LENGTH])
    }
}
