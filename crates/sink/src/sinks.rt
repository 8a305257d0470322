// A sink, by the log that it means.
ghost use Rattle.std.specs.Prelude.{◌≡◌, ◌==◌, ◌<◌, ◌≤◌, cond, length, MatchOption, MatchResult, slice_index_or};
ghost use Rattle.record.specs.Entries.{Entry, entry as entry_of};
ghost use Rattle.record.specs.Validity.{Valid};
ghost use Rattle.sink.specs.Frames.{Ties};
ghost use Rattle.sink.specs.Logs.{Log, put, put_number};
ghost use Rattle.std.specs.List.{AllByRecursion};

use record::record::Record;
use slots::list::Full;

pub trait Sink {
    // What it holds, and how many more it takes.
    ghost holds: { Self → Log Entry };

    // It holds only what records can say.
    ghost valid: { (s : Self) → AllByRecursion Valid (holds s).entries };

    // What it leaves alone.
    ghost frame: { Self → Self → Type 0 };

    // It does so from step to step.
    ghost ties: { Ties frame };

    // Adds a record at the end, or changes nothing where there is no room.
    fn put(&mut self, record: Record) -> Result<(), Full>
        ensures holds { holds self.new ≡ put (holds self.old) (entry_of «record») }
        ensures fits { MatchResult result (λ _. 0 < (holds self.old).room) (λ _. ((holds self.old).room ≡ 0) × (self.new ≡ self.old)) }
        ensures number { put_number result ≡ cond ((holds self.old).room == 0) 14 0 }
        ensures frame { frame self.old self.new };

    // How many records it holds.
    fn count(&self) -> usize
        ensures { result ≡ length (holds self.now).entries };

    // How many more it takes.
    fn room(&self) -> usize
        ensures { result ≡ (holds self.now).room };

    // The record at a place, counted from 0.
    fn read_back(&self, place: usize) -> Option<Record>
        ensures { MatchOption result (length (holds self.now).entries ≤ place) (λ x. (place < length (holds self.now).entries) × (entry_of x ≡ slice_index_or (holds self.now).entries place (entry_of x))) };
}
