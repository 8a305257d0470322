// The fields of an opening line, and the station of a body line.
#![tactic(auto)]

ghost use Rattle.std.specs.Prelude.{◌≡◌, ◌+◌, ◌^◌, ◌<◌, ◌≤◌, length, IfOk, MatchResult};
ghost use Rattle.messages.specs.Ways.{map_ok};
ghost use Rattle.reader.specs.Lines.{line_piece};
ghost use Rattle.record.specs.Entries.{name as name_of};
ghost use Rattle.record.specs.Stations.{station_of};
ghost use Rattle.refusals.specs.declared.MessageRefusal.TheVariants as why;
ghost use Rattle.openings.specs.Openings.{field, opened};
ghost use Rattle.openings.specs.Found.{opened_as};
ghost use Rattle.openings.specs.Shown.{OpeningsShown};

mod fields;

use calendar::date::Date;
use fields::Fields;
use messages::message::Message;
use reader::{Form, Line, letters_len};
use record::station::Station;
use refusals::{Fault, MessageRefusal};
use terms::terms::Terms;

// A message as its opening line leaves it; `start` is where in the line its items begin.
#[derive(Clone, Copy)]
pub struct Opening {
    pub message: Message,
    pub terms: Terms,
    pub start: usize,
}

// A line that would end beyond the last place of a text is refused.
fn placed(line: Line<'_>) -> Result<(), Fault>
    ensures { MatchResult result (λ _. line.entry.place + length line.entry.part.now < 2 ^ 64) (λ _. 2 ^ 64 ≤ line.entry.place + length line.entry.part.now) }
{
    if line.part.len() > usize::MAX - line.place {
        return Err(MessageRefusal::Unreadable.at(line.place));
    }
    Ok(())
}

// The opening of a message.
pub fn read_opening(
    line: Line<'_>,
    form: Form,
    revised: bool,
    today: Date,
) -> Result<Opening, Fault>
    ensures value { line.entry.place + length line.entry.part.now < 2 ^ 64 → map_ok opened_as result ≡ opened today form revised (line_piece line.entry) }
    ensures valid { IfOk result (λ o. (o.start ≤ length line.entry.part.now) × (o.message.form ≡ form)) }
{
    placed(line)?;
    let mut fields = Fields {
        line,
        from: letters_len(line.part),
    };
    let station = fields.station()?;
    let date = fields.date(today)?;
    let zone = fields.zone();
    let message = Message {
        form,
        revised,
        zone,
        station,
        source: None,
    };
    Ok(Opening {
        message,
        terms: Terms::opening(date, zone),
        start: fields.from,
    })
}

// The station that a body line begins with, and the offset behind it.
pub fn body_station(line: Line<'_>) -> Result<(Station, usize), Fault>
    ensures value { line.entry.place + length line.entry.part.now < 2 ^ 64 → map_ok (λ x. (name_of x.0, x.1)) result ≡ field why.Station station_of (line_piece line.entry) 0 }
    ensures valid { IfOk result (λ x. x.1 ≤ length line.entry.part.now) }
{
    placed(line)?;
    let mut fields = Fields { line, from: 0 };
    let station = fields.station()?;
    Ok((station, fields.from))
}

// An opening is read where behind its letters stand a station's word and a date's, and perhaps a zone's, and else is refused at the
// word that is none, or at its end.
pub fn openings_show_their_fields()
    ensures { OpeningsShown }
{}
