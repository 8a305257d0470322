// Decoding a text into a sink.
ghost use Rattle.std.specs.Prelude.{◌≡◌, ◌+◌, ◌^◌, ◌<◌, true, false, length, MatchResult};
ghost use Rattle.calendar.specs.Dates.{message_day};
ghost use Rattle.events.specs.Events.{fault as fault_at, met, records};
ghost use Rattle.events.specs.Room.{refusals};
ghost use Rattle.daylight.specs.Settings.{setting, told};
ghost use Rattle.reader.specs.Lines.{line_piece};
ghost use Rattle.shef.specs.Decodes.{answer_of, counted, decoded, delivered as delivered_of, ending_number, ends_here};
ghost use Rattle.refusals.specs.declared.Refusal.TheVariants as refusal;
ghost use Rattle.stages.specs.Machines.{stage_of};
ghost use Rattle.shef.specs.Answers.{Read, ending_of, ends_reading, last_of, noted};
ghost use Rattle.stages.specs.Stages.{closing};
ghost use Rattle.shef.specs.Texts.{is_opening};
ghost use Rattle.sink.specs.Logs.{of_slots, put, put_all};
ghost use Rattle.sink.specs.Tables.{Grown};

use calendar::date::Date;
use daylight::rule::Rule;
use daylight::setting::Setting;
use reader::{Line, LineKind, Lines, kind_of};
use refusals::{Fault, Refusal};
use sink::Sink;
use slots::list::Slots;
use stages::Machine;

// How a decode ended.
#[derive(Clone, Copy, PartialEq, Eq)]
pub enum Ending {
    // The text was read to its end.
    Whole,
    // The current date is no day of 1900 to 2099, and nothing was read.
    NoDay,
    // A record found no room, and nothing behind it was read.
    NoRoom,
}

impl Ending {
    // How a reading ends that comes through, or hands on the fault that ends it: no day, or no room.
    fn of(read: Result<(), Fault>) -> Ending
        ensures { result ≡ ending_of read }
    {
        match read {
            Ok(()) => Ending::Whole,
            Err(
                Fault {
                    refusal: Refusal::CurrentDate,
                    ..
                },
            ) => Ending::NoDay,
            Err(_) => Ending::NoRoom,
        }
    }

    // The number by which users know it.
    pub fn number(self) -> u8
        ensures { result ≡ ending_number self }
    {
        match self {
            Ending::Whole => 0,
            Ending::NoDay => 1,
            Ending::NoRoom => 14,
        }
    }
}

// What a decode answers: how it ended, the records delivered and the faults found.
#[derive(Clone, Copy)]
pub struct Answer {
    pub ending: Ending,
    pub delivered: usize,
    pub found: u64,
}

fn is_opening(kind: LineKind) -> bool
    ensures { result ≡ is_opening kind }
{
    matches!(kind, LineKind::Opening(_, _))
}

// What is refused: the caller's list, and how many refusals there were, listed or not. That a u64 is below 2^64 is known of a
// parameter, and of a field only where its type says so.
#[derive(Drop)]
struct Refused<'l, 'a> {
    list: &'l mut Slots<'a, Fault>,
    found: u64,
    ghost fits: { found < 2 ^ 64 },
}

impl<'l, 'a> Refused<'l, 'a> {
    // Puts a fault into the list, where it has room, and counts it.
    fn report(&mut self, fault: Fault)
        ensures list { of_slots self.new.list.now ≡ put (of_slots self.old.list.now) fault }
        ensures frame { Grown self.old.list.now self.new.list.now }
        ensures count { self.new.found ≡ counted (self.old.found + 1) }
        ensures lent { self.new.list.ghost_name ≡ self.old.list.ghost_name }
    {
        let _ = self.list.push(fault);
        self.found = self.found.saturating_add(1);
    }

    // A fault ends its message and is reported; one that ends the whole reading goes up.
    fn note(&mut self, fault: Fault) -> Result<(), Fault>
        ensures cases { MatchResult result (λ _. ends_reading fault.refusal ≡ false) (λ f. (f ≡ fault) × (ends_reading fault.refusal ≡ true)) }
        ensures list { of_slots self.new.list.now ≡ put_all (of_slots self.old.list.now) (noted fault) }
        ensures frame { Grown self.old.list.now self.new.list.now }
        ensures count { self.new.found ≡ counted (self.old.found + length (noted fault)) }
        ensures lent { self.new.list.ghost_name ≡ self.old.list.ghost_name }
    {
        match fault.refusal {
            Refusal::NoRoom => Err(fault),
            _ => {
                self.report(fault);
                Ok(())
            }
        }
    }

    // The fault that ended a reading, if one did.
    fn report_last(&mut self, read: Result<(), Fault>)
        ensures list { of_slots self.new.list.now ≡ put_all (of_slots self.old.list.now) (last_of read) }
        ensures frame { Grown self.old.list.now self.new.list.now }
        ensures count { self.new.found ≡ counted (self.old.found + length (last_of read)) }
        ensures lent { self.new.list.ghost_name ≡ self.old.list.ghost_name }
    {
        if let Err(fault) = read {
            self.report(fault);
        }
    }

    // A table that is still open is refused at a place.
    fn close_at(&mut self, machine: &Machine<'_>, place: usize)
        ensures list { of_slots self.new.list.now ≡ put_all (of_slots self.old.list.now) (refusals (closing (stage_of machine.now) place)) }
        ensures frame { Grown self.old.list.now self.new.list.now }
        ensures count { self.new.found ≡ counted (self.old.found + length (refusals (closing (stage_of machine.now) place))) }
        ensures lent { self.new.list.ghost_name ≡ self.old.list.ghost_name }
    {
        if let Some(fault) = machine.close(place) {
            self.report(fault);
        }
    }

    // An opening ends a table that is still open.
    fn close_before(&mut self, machine: &Machine<'_>, line: Line<'_>)
        ensures list { of_slots self.new.list.now ≡ put_all (of_slots self.old.list.now) (refusals (ends_here (stage_of machine.now) (line_piece line.entry))) }
        ensures frame { Grown self.old.list.now self.new.list.now }
        ensures count { self.new.found ≡ counted (self.old.found + length (refusals (ends_here (stage_of machine.now) (line_piece line.entry)))) }
        ensures lent { self.new.list.ghost_name ≡ self.old.list.ghost_name }
    {
        if is_opening(kind_of(line.part)) {
            self.close_at(machine, line.place);
        }
    }
}

// Reads `text` under the current date and a daylight rule: records go to the sink while it has room, and what is refused goes to the
// list, as far as it fits.
pub fn decode<S: Sink, R: Rule>(
    text: &[u8],
    today: Date,
    rule: &R,
    sink: &mut S,
    faults: &mut Slots<'_, Fault>,
) -> Answer
    ensures sink { S.Sink.holds sink.new ≡ put_all (S.Sink.holds sink.old) (records (decoded (setting today (R.Rule.daylight rule.now)) text.now)) }
    ensures list { of_slots faults.new ≡ put_all (of_slots faults.old) (met (S.Sink.holds sink.old).room (decoded (setting today (R.Rule.daylight rule.now)) text.now)) }
    ensures number { ending_number result.ending ≡ answer_of (setting today (R.Rule.daylight rule.now)) (S.Sink.holds sink.old).room text.now }
    ensures delivered { result.delivered ≡ delivered_of (S.Sink.holds sink.old).room (decoded (setting today (R.Rule.daylight rule.now)) text.now) }
    ensures found { result.found ≡ counted (length (met (S.Sink.holds sink.old).room (decoded (setting today (R.Rule.daylight rule.now)) text.now))) }
    ensures frame { (S.Sink.frame sink.old sink.new) × (Grown faults.old faults.new) }
{
    let setting = Setting { today, rule };
    let held = sink.count();
    let mut refused = Refused {
        list: faults,
        found: 0,
    };
    let read = read_text(text, &setting, sink, &mut refused);
    refused.report_last(read);
    Answer {
        ending: Ending::of(read),
        delivered: sink.count().saturating_sub(held),
        found: refused.found,
    }
}

// Under a current date that is no day of 1900 to 2099 nothing is read.
fn dated(today: Date) -> Result<(), Fault>
    ensures { MatchResult result (λ _. message_day today ≡ true) (λ f. (message_day today ≡ false) × (f ≡ fault_at refusal.CurrentDate 0)) }
{
    if today.is_message_day() {
        Ok(())
    } else {
        Err(Refusal::CurrentDate.at(0))
    }
}

// Reads line after line, up to the text's end or the fault that ends the whole reading. Any other ends its message, and the lines up to
// the next opening are skipped.
fn read_text<S: Sink, R: Rule>(
    text: &[u8],
    setting: &Setting<'_, R>,
    sink: &mut S,
    refused: &mut Refused<'_, '_>,
) -> Result<(), Fault>
    requires { refused.old.found ≡ 0 }
    ensures done { Read (S.Sink.holds sink.old) (S.Sink.holds sink.new) (of_slots refused.old.list.now) (of_slots refused.new.list.now) (decoded (told R.daylight setting.now) text.now) (answer_of (told R.daylight setting.now) (S.Sink.holds sink.old).room text.now) result refused.new.found }
    ensures frame { (S.Sink.frame sink.old sink.new) × (Grown refused.old.list.now refused.new.list.now) }
    ensures lent { refused.new.list.ghost_name ≡ refused.old.list.ghost_name }
{
    dated(setting.today)?;
    let mut machine = Machine::new();
    let mut lines = Lines::new(text);
    while let Some(line) = lines.next_line() {
        refused.close_before(&machine, line);
        if let Err(fault) = machine.take_line(line, lines, setting, sink) {
            refused.note(fault)?;
            machine.skip();
        }
    }
    refused.close_at(&machine, text.len());
    Ok(())
}
