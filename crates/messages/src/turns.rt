// What each item of a message does.
ghost use Rattle.std.specs.Prelude.{◌≡◌, false, None};
ghost use Rattle.daylight.specs.Settings.{told};
ghost use Rattle.messages.specs.Models.{fresh, common, reached, turned};
ghost use Rattle.messages.specs.Turns.{d_item, code_read, valued, item_of_a, step_of_e, code_of_e, code_or_step, item_of_body, mark_of_step, stage_of, turn as turn_of};
ghost use Rattle.terms.specs.Standing.{standing};
ghost use Rattle.merging.specs.Merging.{sided, is_d};
ghost use Rattle.messages.specs.Ways.{map_ok};
ghost use Rattle.record.specs.Entries.{entry as entry_of};

use crate::message::{Message, Progress, Turn};
use daylight::rule::Rule;
use daylight::setting::Setting;
use items::split_item;
use merging::{Part, is_d_item};
use quantity::code::Code;
use quantity::codes::code_of;
use quantity::parameters::parameter_of;
use reader::Form;
use record::record::Record;
use record::series::Series;
use refusals::ItemRefusal;
use terms::stage::Stage;
use terms::terms::Terms;
use values::read::read_value;

fn read_code(signs: &[u8]) -> Result<Code, ItemRefusal>
    ensures { map_ok (λ c. c.signs) result ≡ code_read signs.now }
{
    code_of(signs).ok_or(ItemRefusal::Code)
}

// The first record of a message's steps begins a series, and the others go on with it.
fn series_of(begun: bool) -> Series
    ensures { result ≡ mark_of_step begun }
{
    if begun { Series::Later } else { Series::First }
}

fn stage_of(steps: u64) -> Stage
    ensures { result ≡ stage_of steps }
{
    if steps == 0 {
        Stage::BeforeSteps
    } else {
        Stage::AmongSteps
    }
}

impl Progress {
    // The progress of a message that opens under these terms.
    pub fn new(terms: Terms) -> Progress
        ensures { reached result ≡ fresh (standing terms) }
    {
        Progress {
            terms,
            code: None,
            steps: 0,
            begun: false,
        }
    }

    fn silent(self) -> Turn
        ensures { turned result ≡ (reached self, None) }
    {
        Turn {
            progress: self,
            record: None,
        }
    }

    // A code for the next value; an empty item leaves the code as it is.
    fn take_code(self, item: &[u8]) -> Result<Turn, ItemRefusal>
        ensures { map_ok turned result ≡ code_of_e (reached self) item.now }
    {
        if item.is_empty() {
            return Ok(self.silent());
        }
        let code = Some(read_code(item)?);
        Ok(Progress { code, ..self }.silent())
    }
}

impl Message {
    // A D item sets the terms.
    #[tactic(auto, unfolding(crate::specs::Turns::d_item))]
    fn set_terms<R: Rule>(
        &self,
        progress: Progress,
        item: &[u8],
        stage: Stage,
        setting: &Setting<'_, R>,
    ) -> Result<Turn, ItemRefusal>
        ensures { map_ok turned result ≡ d_item (told R.daylight setting.now) (common self.now) (reached progress) stage item.now }
    {
        let terms = progress
            .terms
            .after_item(item, stage, self.zone, setting)
            .ok_or(ItemRefusal::DItem)?;
        Ok(Progress { terms, ..progress }.silent())
    }

    // The record that a value gives under a code.
    #[tactic(auto, unfolding(crate::specs::Turns::valued))]
    fn record<R: Rule>(
        &self,
        terms: Terms,
        code: Code,
        value: &[u8],
        series: Series,
        step: u64,
        setting: &Setting<'_, R>,
    ) -> Result<Record, ItemRefusal>
        ensures { map_ok entry_of result ≡ valued (told R.daylight setting.now).daylight (common self.now) (standing terms) code.signs value.now series step }
    {
        let parameter = parameter_of(code, terms.variable).ok_or(ItemRefusal::NoDuration)?;
        let quantity = read_value(value, code, terms.units)?;
        let observed = terms
            .observed(step, self.zone, setting)
            .ok_or(ItemRefusal::NoTime)?;
        Ok(Record {
            station: self.station,
            observed,
            created: terms.created,
            parameter,
            value: quantity.value,
            qualifier: quantity.qualifier,
            revised: self.revised,
            series,
            source: self.source,
        })
    }

    // An item of .A that is no D item: nothing, or a code and a value.
    #[tactic(auto, unfolding(crate::specs::Turns::item_of_a))]
    fn read_a<R: Rule>(
        &self,
        progress: Progress,
        item: &[u8],
        setting: &Setting<'_, R>,
    ) -> Result<Turn, ItemRefusal>
        requires { is_d item.now ≡ false }
        ensures { map_ok turned result ≡ item_of_a (told R.daylight setting.now) (common self.now) (reached progress) item.now }
    {
        if item.is_empty() {
            return Ok(progress.silent());
        }
        let (word, value) = split_item(item);
        let code = read_code(word)?;
        let record = self.record(progress.terms, code, value, Series::Single, 0, setting)?;
        Ok(Turn {
            progress,
            record: Some(record),
        })
    }

    // A step of .E, which may be empty.
    #[tactic(auto, unfolding(crate::specs::Turns::step_of_e))]
    fn read_step<R: Rule>(
        &self,
        progress: Progress,
        code: Code,
        item: &[u8],
        setting: &Setting<'_, R>,
    ) -> Result<Turn, ItemRefusal>
        ensures { map_ok turned result ≡ step_of_e (told R.daylight setting.now).daylight (common self.now) (reached progress) code.signs item.now }
    {
        let steps = progress.steps.saturating_add(1);
        if item.is_empty() {
            return Ok(Progress { steps, ..progress }.silent());
        }
        if progress.terms.interval.is_none() {
            return Err(ItemRefusal::NoCodeOrInterval);
        }
        let series = series_of(progress.begun);
        let record = self.record(progress.terms, code, item, series, progress.steps, setting)?;
        Ok(Turn {
            progress: Progress {
                steps,
                begun: true,
                ..progress
            },
            record: Some(record),
        })
    }

    // An item of .E that is no D item: the code first, and steps behind it.
    fn read_e<R: Rule>(
        &self,
        progress: Progress,
        item: &[u8],
        setting: &Setting<'_, R>,
    ) -> Result<Turn, ItemRefusal>
        ensures { map_ok turned result ≡ code_or_step (told R.daylight setting.now) (common self.now) (reached progress) (reached progress).code item.now }
    {
        match progress.code {
            Some(code) => self.read_step(progress, code, item, setting),
            None => progress.take_code(item),
        }
    }

    // An item of a .B body line that is no D item: a value or an empty item, which use up the code.
    #[tactic(auto, unfolding(crate::specs::Turns::item_of_body))]
    fn read_body<R: Rule>(
        &self,
        progress: Progress,
        item: &[u8],
        setting: &Setting<'_, R>,
    ) -> Result<Turn, ItemRefusal>
        requires { is_d item.now ≡ false }
        ensures { map_ok turned result ≡ item_of_body (told R.daylight setting.now) (common self.now) (reached progress) item.now }
    {
        let used = Progress {
            code: None,
            ..progress
        };
        if item.is_empty() {
            return Ok(used.silent());
        }
        let code = progress.code.ok_or(ItemRefusal::NoCodeOrInterval)?;
        let record = self.record(progress.terms, code, item, Series::Single, 0, setting)?;
        Ok(Turn {
            progress: used,
            record: Some(record),
        })
    }

    // What an item does: a D item by its stage, any other by the form of the message and whose item it is.
    #[tactic(auto, unfolding(crate::specs::Turns::item_of_a, crate::specs::Turns::item_of_body, crate::specs::Turns::item_of_header, crate::specs::Turns::item_of_e))]
    pub fn read_part<R: Rule>(
        &self,
        progress: Progress,
        part: Part<'_>,
        setting: &Setting<'_, R>,
    ) -> Result<Turn, ItemRefusal>
        ensures { map_ok turned result ≡ turn_of (told R.daylight setting.now) (common self.now) (reached progress) (sided part.entry) }
    {
        match (part, self.form) {
            (Part::Line(item), Form::E) if is_d_item(item.part) => {
                self.set_terms(progress, item.part, stage_of(progress.steps), setting)
            }
            (Part::Header(item) | Part::Line(item), _) if is_d_item(item.part) => {
                self.set_terms(progress, item.part, Stage::Free, setting)
            }
            (Part::Header(item), _) => progress.take_code(item.part),
            (Part::Line(item), Form::A) => self.read_a(progress, item.part, setting),
            (Part::Line(item), Form::B) => self.read_body(progress, item.part, setting),
            (Part::Line(item), Form::E) => self.read_e(progress, item.part, setting),
        }
    }
}
