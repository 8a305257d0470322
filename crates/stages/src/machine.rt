// What each kind of line does in each stage.
ghost use Rattle.std.specs.Prelude.{◌≡◌, ◌+◌, ◌^◌, ◌<◌, true, false, List, ◌∷◌, length, drop, MatchOption, MatchResult, OnErr, OnOk};
ghost use Rattle.events.specs.Events.{fault as fault_at};
ghost use Rattle.events.specs.Passing.{Comes};
ghost use Rattle.daylight.specs.Settings.{told};
ghost use Rattle.messages.specs.Models.{common, reached};
ghost use Rattle.reader.specs.Kinds.{kind_of, readable};
ghost use Rattle.reader.specs.declared.kind.LineKind.TheVariants as kind;
ghost use Rattle.refusals.specs.declared.MessageRefusal.TheVariants as why;
ghost use Rattle.refusals.specs.declared.Refusal.TheVariants as refusal;
ghost use Rattle.reader.specs.Lines.{Piece, line_piece, lines_ahead};
ghost use Rattle.stages.specs.Machines.{header_of, stage_of, Tied};
ghost use Rattle.stages.specs.Stages.{begins, behind, body_line, came, closing, continues, continues_as, is_table, next, outside, skipping};
ghost use Rattle.stages.specs.Told.{closed};
ghost use Rattle.terms.specs.Standing.{standing};

use crate::stage::{Machine, Open, Stage};
use daylight::rule::Rule;
use daylight::setting::Setting;
use items::{Items, next_word};
use logging::parts::OwnParts;
use logging::read_parts;
use merging::{Header, Merged, continued_items};
use messages::message::{Message, Progress};
use openings::{body_station, read_opening};
use reader::{Form, Line, LineKind, Lines, continuation_of, is_readable, kind_of};
use refusals::{Fault, MessageRefusal};
use sink::Sink;

impl Open {
    fn is_table(&self) -> bool
        ensures { result ≡ is_table self.now.message.form }
    {
        self.message.form == Form::B
    }

    // The number of a line that continues the message: its letters are the same, and its number is the next.
    fn next_number(&self, form: Form, revised: bool, line: &[u8]) -> Option<u8>
        ensures { MatchOption result (continues_as (common self.now.message) self.now.number form revised line.now ≡ false) (λ n. (continues_as (common self.now.message) self.now.number form revised line.now ≡ true) × (n ≡ self.now.number + 1)) }
    {
        let here = continuation_of(line)?;
        if self.message.form == form
            && self.message.revised == revised
            && here.number > 0
            && here.number - 1 == self.number
        {
            Some(here.number)
        } else {
            None
        }
    }
}

// A line is held to its length and its bytes before anything in it is read.
fn checked(line: Line<'_>) -> Result<(), Fault>
    ensures { MatchResult result (λ _. readable line.entry.part.now ≡ true) (λ f. (readable line.entry.part.now ≡ false) × (f ≡ fault_at (refusal.Message why.Unreadable) line.entry.place)) }
{
    if is_readable(line.part) {
        Ok(())
    } else {
        Err(MessageRefusal::Unreadable.at(line.place))
    }
}

impl<'a> Machine<'a> {
    // Before a text, where no message is open.
    pub fn new() -> Machine<'a>
        ensures stage { stage_of result ≡ outside }
        ensures tied { (ls : List Piece) → Tied result ls }
    {
        Machine {
            stage: Stage::Outside,
            opening: Items::none(),
            lines: Lines::new(&[]),
        }
    }

    // An opening begins a message, whatever stood before it. Here and below the setting is read and the sink written, so they are two.
    fn open<S: Sink, R: Rule>(
        &mut self,
        line: Line<'a>,
        behind: Lines<'a>,
        form: Form,
        revised: bool,
        setting: &Setting<'_, R>,
        sink: &mut S,
    ) -> Result<(), Fault>
        requires { line.place + length line.part.now < 2 ^ 64 }
        ensures cases { Comes result (S.Sink.holds sink.old) (S.Sink.holds sink.new) (came (told R.daylight setting.now) (begins (told R.daylight setting.now) form revised (line_piece line.entry))) (λ _ k. k (stage_of self.new)) }
        ensures tied { OnOk result (Tied self.new (lines_ahead behind.entry)) }
        ensures frame { S.Sink.frame sink.old sink.new }
        ensures refused { OnErr result (self.new ≡ self.old) }
    {
        checked(line)?;
        let opening = read_opening(line, form, revised, setting.today)?;
        let (_, rest) = line.part.split_at(opening.start);
        let items = Items::of_line(rest, line.place + opening.start);
        let own = OwnParts {
            form: opening.message.form,
            items,
        };
        let progress = read_parts(
            &opening.message,
            Progress::new(opening.terms),
            own,
            setting,
            sink,
        )?;
        self.stage = Stage::Header(Open {
            message: opening.message,
            terms: opening.terms,
            progress,
            number: 0,
        });
        self.opening = items;
        self.lines = behind;
        Ok(())
    }

    fn carry_on<S: Sink, R: Rule>(
        &mut self,
        held: Open,
        line: Line<'a>,
        form: Form,
        revised: bool,
        setting: &Setting<'_, R>,
        sink: &mut S,
    ) -> Result<(), Fault>
        requires { line.place + length line.part.now < 2 ^ 64 }
        ensures cases { (rest : List Piece) → drop held.number (lines_ahead self.old.lines) ≡ (line_piece line.entry) ∷ rest → Comes result (S.Sink.holds sink.old) (S.Sink.holds sink.new) (came (told R.daylight setting.now) (continues (common held.message) (standing held.terms) (reached held.progress) held.number (header_of self.old held.number) form revised (line_piece line.entry))) (λ _ k. k (stage_of self.new)) }
        ensures tied { (rest : List Piece) → drop held.number (lines_ahead self.old.lines) ≡ (line_piece line.entry) ∷ rest → OnOk result (Tied self.new rest) }
        ensures frame { S.Sink.frame sink.old sink.new }
        ensures refused { OnErr result (self.new ≡ self.old) }
    {
        checked(line)?;
        let Some(number) = held.next_number(form, revised, line.part) else {
            return Err(MessageRefusal::Continuation.at(line.place));
        };
        let own = OwnParts {
            form: held.message.form,
            items: continued_items(line),
        };
        let progress = read_parts(&held.message, held.progress, own, setting, sink)?;
        self.stage = Stage::Header(Open {
            progress,
            number,
            ..held
        });
        Ok(())
    }

    // A body line starts from the terms of the opening; a blank one is passed over.
    fn read_body<S: Sink, R: Rule>(
        &mut self,
        held: Open,
        line: Line<'a>,
        setting: &Setting<'_, R>,
        sink: &mut S,
    ) -> Result<(), Fault>
        requires { line.place + length line.part.now < 2 ^ 64 }
        ensures cases { Comes result (S.Sink.holds sink.old) (S.Sink.holds sink.new) (came (told R.daylight setting.now) (body_line (common held.message) (standing held.terms) (header_of self.old held.number) (line_piece line.entry))) (λ _ k. k (stage_of self.new)) }
        ensures tied { OnOk result ((rest : List Piece) → Tied self.new rest) }
        ensures frame { S.Sink.frame sink.old sink.new }
        ensures refused { OnErr result (self.new ≡ self.old) }
    {
        checked(line)?;
        if next_word(line.part).is_none() {
            self.stage = Stage::Body(held);
            return Ok(());
        }
        let (station, from) = body_station(line)?;
        let (_, rest) = line.part.split_at(from);
        let own = Items::of_body(rest, line.place + from);
        let header = Header::new(self.opening, self.lines, held.number);
        let message = Message {
            station,
            source: Some(held.message.station),
            ..held.message
        };
        let parts = Merged::new(header, own);
        read_parts(&message, Progress::new(held.terms), parts, setting, sink)?;
        self.stage = Stage::Body(held);
        Ok(())
    }

    // The open message has ended.
    fn end(&mut self)
        ensures stage { stage_of self.new ≡ outside }
        ensures tied { (rest : List Piece) → Tied self.new rest }
    {
        self.stage = Stage::Outside;
    }

    // Behind a header a line with another first dot ends a message, but a table is unfinished there.
    fn end_header(&mut self, held: Open, line: Line<'a>) -> Result<(), Fault>
        ensures cases { MatchResult result (λ _. (is_table held.message.form ≡ false) × (stage_of self.new ≡ outside)) (λ f. (is_table held.message.form ≡ true) × (f ≡ fault_at (refusal.Message why.Unfinished) line.entry.place)) }
        ensures tied { OnOk result ((rest : List Piece) → Tied self.new rest) }
        ensures refused { OnErr result (self.new ≡ self.old) }
    {
        if held.is_table() {
            return Err(MessageRefusal::Unfinished.at(line.place));
        }
        self.end();
        Ok(())
    }

    // Behind a header a table's body begins, and any other message has ended.
    fn leave_header<S: Sink, R: Rule>(
        &mut self,
        held: Open,
        line: Line<'a>,
        setting: &Setting<'_, R>,
        sink: &mut S,
    ) -> Result<(), Fault>
        requires { line.place + length line.part.now < 2 ^ 64 }
        ensures cases { Comes result (S.Sink.holds sink.old) (S.Sink.holds sink.new) (came (told R.daylight setting.now) (behind (common held.message) (standing held.terms) (header_of self.old held.number) (line_piece line.entry) kind.Other)) (λ _ k. k (stage_of self.new)) }
        ensures tied { OnOk result ((rest : List Piece) → Tied self.new rest) }
        ensures frame { S.Sink.frame sink.old sink.new }
        ensures refused { OnErr result (self.new ≡ self.old) }
    {
        if held.is_table() {
            return self.read_body(held, line, setting, sink);
        }
        self.end();
        Ok(())
    }

    // What a line does, by its kind and the stage: a row for each pair.
    fn step<S: Sink, R: Rule>(
        &mut self,
        line: Line<'a>,
        behind: Lines<'a>,
        setting: &Setting<'_, R>,
        sink: &mut S,
    ) -> Result<(), Fault>
        requires { line.place + length line.part.now < 2 ^ 64 }
        ensures cases { Tied self.old ((line_piece line.entry) ∷ lines_ahead behind.entry) → Comes result (S.Sink.holds sink.old) (S.Sink.holds sink.new) (came (told R.daylight setting.now) (next (told R.daylight setting.now) (stage_of self.old) (line_piece line.entry))) (λ _ k. k (stage_of self.new)) }
        ensures tied { Tied self.old ((line_piece line.entry) ∷ lines_ahead behind.entry) → OnOk result (Tied self.new (lines_ahead behind.entry)) }
        ensures frame { S.Sink.frame sink.old sink.new }
        ensures refused { OnErr result (self.new ≡ self.old) }
    {
        match kind_of(line.part) {
            LineKind::Opening(form, revised) => self.open(
                line, behind, form, revised, setting, sink,
            ),
            LineKind::Continuation(form, revised) => match self.stage {
                Stage::Outside => Err(MessageRefusal::Continuation.at(line.place)),
                Stage::Header(held) => self.carry_on(held, line, form, revised, setting, sink),
                Stage::Body(_) => Err(MessageRefusal::Unfinished.at(line.place)),
                Stage::Skipping => Ok(()),
            },
            LineKind::End => match self.stage {
                Stage::Outside | Stage::Skipping => Ok(()),
                Stage::Header(_) | Stage::Body(_) => {
                    self.end();
                    Ok(())
                }
            },
            LineKind::Dotted => match self.stage {
                Stage::Outside | Stage::Skipping => Ok(()),
                Stage::Header(held) => self.end_header(held, line),
                Stage::Body(_) => Err(MessageRefusal::Unfinished.at(line.place)),
            },
            LineKind::Other => match self.stage {
                Stage::Outside | Stage::Skipping => Ok(()),
                Stage::Header(held) => self.leave_header(held, line, setting, sink),
                Stage::Body(held) => self.read_body(held, line, setting, sink),
            },
        }
    }

    // Reads a line; `behind` are the lines that follow it. One that would end beyond the last place of a text is refused.
    pub fn take_line<S: Sink, R: Rule>(
        &mut self,
        line: Line<'a>,
        behind: Lines<'a>,
        setting: &Setting<'_, R>,
        sink: &mut S,
    ) -> Result<(), Fault>
        ensures cases { line.entry.place + length line.entry.part.now < 2 ^ 64 → Tied self.old ((line_piece line.entry) ∷ lines_ahead behind.entry) → Comes result (S.Sink.holds sink.old) (S.Sink.holds sink.new) (came (told R.daylight setting.now) (next (told R.daylight setting.now) (stage_of self.old) (line_piece line.entry))) (λ _ k. k (stage_of self.new)) }
        ensures tied { Tied self.old ((line_piece line.entry) ∷ lines_ahead behind.entry) → OnOk result (Tied self.new (lines_ahead behind.entry)) }
        ensures frame { S.Sink.frame sink.old sink.new }
        ensures refused { OnErr result (self.new ≡ self.old) }
    {
        if line.part.len() > usize::MAX - line.place {
            return Err(MessageRefusal::Unreadable.at(line.place));
        }
        self.step(line, behind, setting, sink)
    }

    // Of a message that was refused nothing more is read.
    pub fn skip(&mut self)
        ensures stage { stage_of self.new ≡ skipping }
        ensures tied { (ls : List Piece) → Tied self.new ls }
    {
        self.stage = Stage::Skipping;
    }

    // A table that is still open where its stretch ends is refused there.
    pub fn close(&self, place: usize) -> Option<Fault>
        ensures { closed result ≡ closing (stage_of self.now) place }
    {
        let is_open = match self.stage {
            Stage::Outside | Stage::Skipping => false,
            Stage::Header(held) => held.is_table(),
            Stage::Body(_) => true,
        };
        is_open.then(|| MessageRefusal::Unfinished.at(place))
    }
}
