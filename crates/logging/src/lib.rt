// The items of a line, read one after the other, each record logged as it comes.
#![tactic(auto)]

ghost use Rattle.std.specs.Prelude.{◌≡◌};
ghost use Rattle.daylight.specs.Settings.{told};
ghost use Rattle.events.specs.Passing.{Comes};
ghost use Rattle.merging.specs.Merging.{sided};
ghost use Rattle.messages.specs.Models.{common, reached};
ghost use Rattle.messages.specs.Turns.{turn};
ghost use Rattle.record.specs.Entries.{entry as entry_of};
ghost use Rattle.logging.specs.Follow.{place_of, logs, turn_then, follow};
ghost use Rattle.std.specs.Option.{option_map};

pub mod laws;
pub mod parts;

use crate::parts::Parts;
use daylight::rule::Rule;
use daylight::setting::Setting;
use merging::Part;
use messages::message::{Message, Progress};
use record::record::Record;
use refusals::{Fault, Refusal};
use sink::Sink;

fn place_of(part: Part<'_>) -> usize
    ensures { result ≡ place_of (sided part.entry) }
{
    match part {
        Part::Header(item) | Part::Line(item) => item.place,
    }
}

// Logs a record, if there is one.
fn log<S: Sink>(sink: &mut S, record: Option<Record>, place: usize) -> Result<(), Fault>
    ensures cases { Comes result (S.Sink.holds sink.old) (S.Sink.holds sink.new) (logs place (option_map entry_of «record»)) (λ _ k. k) }
    ensures frame { S.Sink.frame sink.old sink.new }
{
    match record {
        Some(record) => sink.put(record).map_err(|_| Refusal::NoRoom.at(place)),
        None => Ok(()),
    }
}

// Reads an item, and logs the record that it gives.
fn take_part<S: Sink, R: Rule>(
    message: &Message,
    progress: Progress,
    part: Part<'_>,
    setting: &Setting<'_, R>,
    sink: &mut S,
) -> Result<Progress, Fault>
    ensures cases { Comes result (S.Sink.holds sink.old) (S.Sink.holds sink.new) (turn_then (place_of (sided part.entry)) (turn (told R.daylight setting.now) (common message.now) (reached progress) (sided part.entry))) (λ q k. k (reached q)) }
    ensures frame { S.Sink.frame sink.old sink.new }
{
    let place = place_of(part);
    let turn = message
        .read_part(progress, part, setting)
        .map_err(|refusal| refusal.at(place))?;
    log(sink, turn.record, place)?;
    Ok(turn.progress)
}

// Reads the items that are yet to come, up to the first refusal.
pub fn read_parts<'a, S: Sink, R: Rule, P: Parts<'a>>(
    message: &Message,
    progress: Progress,
    parts: P,
    setting: &Setting<'_, R>,
    sink: &mut S,
) -> Result<Progress, Fault>
    ensures cases { Comes result (S.Sink.holds sink.old) (S.Sink.holds sink.new) (follow (told R.daylight setting.now) (common message.now) (reached progress) (P.ahead parts)) (λ q k. k (reached q)) }
    ensures frame { S.Sink.frame sink.old sink.new }
{
    let mut progress = progress;
    let mut parts = parts;
    while let Some(part) = parts.next_part() {
        progress = take_part(message, progress, part, setting, sink)?;
    }
    Ok(progress)
}
