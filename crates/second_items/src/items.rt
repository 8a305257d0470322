// The items of a message: what each gives or changes.
use crate::reader::{Head, Log, Message, Reader};
use crate::refusals::{Fault, Refusal, Trouble};
use second_listing::{Entry, Name, Series};
use second_state::settings::Setting;
use second_state::state::{State, Units};
use second_state::{settings, state};
use second_text::lines::Form;
use second_text::parts::Part;
use second_time::days::Day;
use second_value::codes::Code;
use second_value::{codes, elements, values};

// A value on its way to a record.
#[derive(Clone, Copy)]
struct Sent {
    station: Name,
    source: Name,
    code: Code,
    state: State,
    step: u64,
    series: Series,
    place: usize,
}

impl Sent {
    // A value for the station and in the state of a message.
    fn of(message: &Message, code: Code, place: usize) -> Sent {
        Sent {
            station: message.name,
            source: second_listing::padded(b""),
            code,
            state: message.state,
            step: 0,
            series: message.series,
            place,
        }
    }
}

fn read_code(item: Part<'_>, text: &[u8]) -> Result<Code, Fault> {
    codes::read_code(text).ok_or(Refusal::Code.at(item.place))
}

// The duration number of a code.
fn duration(code: Code, state: State) -> Option<u16> {
    match code.duration {
        b'V' => state.variable,
        letter => elements::duration(letter),
    }
}

impl Log {
    // Keeps the record of a value.
    fn take(&mut self, message: &Message, sent: Sent, text: &[u8]) -> Result<(), Trouble> {
        let place = sent.place;
        let element = sent.code.element;
        let duration = duration(sent.code, sent.state).ok_or(Refusal::NoDuration.at(place))?;
        let read = values::read_value(text, element).ok_or(Refusal::Value.at(place))?;
        let value = match sent.state.units {
            Units::English => read,
            Units::Si => read
                .from_si(element.conversion)
                .ok_or(Refusal::TooLarge.at(place))?,
        };
        let observed = state::observed(sent.state, message.zone, sent.step).ok_or(
            Refusal::NoTime.at(place),
        )?;
        if self.records.len() >= self.room {
            return Err(Trouble::Found(Refusal::NoRoom.at(place)));
        }
        let entry = Entry {
            station: sent.station,
            observed,
            created: sent.state.created,
            code: sent.code,
            duration,
            value,
            revised: message.letters.revised,
            series: sent.series,
            source: sent.source,
        };
        let line = second_listing::listed(self.heap, entry)?;
        self.records.push(line)?;
        Ok(())
    }
}

// What a D item sets, where it may stand.
fn setting(today: Day, message: &Message, item: Part<'_>) -> Result<Setting, Fault> {
    let refused = Refusal::Setting.at(item.place);
    let found = settings::read_setting(item.bytes, today, message.zone).ok_or(refused)?;
    let series = message.letters.form == Form::Series;
    let allowed = match found {
        Setting::Interval(_) => series && message.steps == 0,
        Setting::Time(_) | Setting::Relative(_) => !series || message.steps == 0,
        _ => true,
    };
    if allowed { Ok(found) } else { Err(refused) }
}

// The D items of a header before its next column, and that column with what stands behind it.
fn to_column(heads: &[Head]) -> Option<(&[Head], Code, &[Head])> {
    let at = heads
        .iter()
        .position(|head| matches!(head, Head::Column(_)))?;
    let (before, rest) = heads.split_at_checked(at)?;
    match rest {
        [Head::Column(code), behind @ ..] => Some((before, *code, behind)),
        _ => None,
    }
}

// The state after D items of a header.
fn settled(state: State, heads: &[Head]) -> State {
    heads.iter().fold(state, |now, head| match head {
        Head::Column(_) => now,
        Head::Sets(setting) => settings::applied(now, *setting),
    })
}

impl Reader {
    // An item of an opening or a continuation.
    pub fn take_item(&mut self, message: &mut Message, item: Part<'_>) -> Result<(), Trouble> {
        if item.bytes.starts_with(b"D") {
            let found = setting(self.today, message, item)?;
            if message.letters.form == Form::Table {
                self.heads.push(Head::Sets(found))?;
            } else {
                message.state = settings::applied(message.state, found);
            }
            return Ok(());
        }
        match message.letters.form {
            Form::Single => self.take_pair(message, item),
            Form::Table => self.take_head(item),
            Form::Series => self.take_step(message, item),
        }
    }

    // A code of a table's header.
    fn take_head(&mut self, item: Part<'_>) -> Result<(), Trouble> {
        if item.bytes.is_empty() {
            return Ok(());
        }
        let code = read_code(item, item.bytes)?;
        self.heads.push(Head::Column(code))?;
        Ok(())
    }

    // A code and its value.
    fn take_pair(&mut self, message: &Message, item: Part<'_>) -> Result<(), Trouble> {
        let Some((first, behind)) = item.word() else {
            return Ok(());
        };
        let code = read_code(item, first.bytes)?;
        let value = behind.trimmed(b" ");
        self.log
            .take(message, Sent::of(message, code, item.place), value.bytes)
    }

    // The code of a series, or one of its steps.
    fn take_step(&mut self, message: &mut Message, item: Part<'_>) -> Result<(), Trouble> {
        let Some(code) = message.code else {
            if !item.bytes.is_empty() {
                message.code = Some(read_code(item, item.bytes)?);
            }
            return Ok(());
        };
        let step = message.steps;
        message.steps = step.saturating_add(1);
        if item.bytes.is_empty() {
            return Ok(());
        }
        if message.state.interval.is_none() {
            return Err(Trouble::Found(Refusal::NoCodeOrInterval.at(item.place)));
        }
        let sent = Sent {
            step,
            ..Sent::of(message, code, item.place)
        };
        self.log.take(message, sent, item.bytes)?;
        message.series = Series::Later;
        Ok(())
    }

    // The items of a body line.
    pub fn take_body(
        &mut self,
        message: &Message,
        station: Name,
        items: &[Part<'_>],
    ) -> Result<(), Trouble> {
        let mut state = message.opening;
        let mut heads = self.heads.as_slice();
        for item in items {
            let column = to_column(heads);
            if let Some((before, _, _)) = column {
                state = settled(state, before);
                heads = heads.get(before.len()..).unwrap_or(&[]);
            }
            if item.bytes.starts_with(b"D") {
                state = settings::applied(state, setting(self.today, message, *item)?);
                continue;
            }
            if let Some((_, _, behind)) = column {
                heads = behind;
            }
            if item.bytes.is_empty() {
                continue;
            }
            let (_, code, _) = column.ok_or(Refusal::NoCodeOrInterval.at(item.place))?;
            let sent = Sent {
                station,
                source: message.name,
                state,
                ..Sent::of(message, code, item.place)
            };
            self.log.take(message, sent, item.bytes)?;
        }
        Ok(())
    }
}
