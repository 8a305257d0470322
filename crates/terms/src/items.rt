// D items: D, the letter of a kind, and what the kind asks for.
ghost use Rattle.std.specs.Prelude.{◌≡◌};
ghost use Rattle.std.specs.Option.{option_map};
ghost use Rattle.daylight.specs.Settings.{told};
ghost use Rattle.terms.specs.Items.{kind_item, after_item};
ghost use Rattle.terms.specs.Standing.{standing};

use crate::stage::Stage;
use crate::terms::Terms;
use daylight::rule::Rule;
use daylight::setting::Setting;
use daylight::zone::Zone;

impl Terms {
    #[tactic(auto, unfolding(crate::specs::Items::kind_item))]
    fn after_kind<R: Rule>(
        self,
        letter: u8,
        rest: &[u8],
        stage: Stage,
        zone: Zone,
        setting: &Setting<'_, R>,
    ) -> Option<Terms>
        ensures { let S = told R.daylight setting.now in option_map standing result ≡ kind_item S.today S.daylight zone stage letter rest.now (standing self) }
    {
        match letter {
            b'C' => self.with_created(rest, zone, setting),
            b'U' => self.with_units(rest),
            b'V' => self.with_variable(rest),
            b'R' => self.with_relative(rest, stage),
            b'I' => self.with_interval(rest, stage),
            _ => self.with_time(letter, rest, stage, setting.today.year),
        }
    }

    // The terms after a D item, or none where it breaks its rule or may not stand there.
    // The zone is the message's and the setting the whole decode's, so they are two parameters.
    #[tactic(auto, unfolding(crate::specs::Items::after_item))]
    pub fn after_item<R: Rule>(
        self,
        item: &[u8],
        stage: Stage,
        zone: Zone,
        setting: &Setting<'_, R>,
    ) -> Option<Terms>
        ensures { let S = told R.daylight setting.now in option_map standing result ≡ after_item S.today S.daylight zone stage item.now (standing self) }
    {
        match item {
            [b'D', letter, rest @ ..] => self.after_kind(*letter, rest, stage, zone, setting),
            _ => None,
        }
    }
}
