// Worked examples of the rules, and the times in them.
ghost use Rattle.std.specs.Prelude.{◌≡◌};
ghost use Rattle.std.specs.Option.{option_map};
ghost use Rattle.instants.specs.Moments.{moment};
ghost use Rattle.examples.specs.Worked.{in_utc, step_of, WorkedExamples};

use calendar::date::Date;
use daylight::law_rule::LawRule;
use daylight::setting::Setting;
use daylight::utc::utc_of;
use daylight::zone::zone_of;
use instants::utc_time::UtcTime;
use terms::stage::Stage;
use terms::terms::Terms;

// The examples come out as written down.
pub fn worked_examples()
    ensures { WorkedExamples }
{}

// A reading in the zone of a word, under the law rule.
pub(crate) fn in_utc(word: &[u8], reading: (Date, u32)) -> Option<UtcTime>
    ensures { option_map moment result ≡ in_utc word.now reading }
{
    utc_of(&LawRule, zone_of(word)?, reading)
}

// The time of a step of a message in the zone of a word, an interval being its only D item.
pub(crate) fn step_of(date: Date, word: &[u8], interval: &[u8], step: u64) -> Option<UtcTime>
    ensures { option_map moment result ≡ step_of date word.now interval.now step }
{
    let zone = zone_of(word)?;
    let opening = Terms::opening(date, zone);
    let setting = Setting {
        today: date,
        rule: &LawRule,
    };
    let terms = opening.after_item(interval, Stage::BeforeSteps, zone, &setting)?;
    terms.observed(step, zone, &setting)
}
