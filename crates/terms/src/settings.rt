// What each kind of D item makes of the terms.
ghost use Rattle.std.specs.Prelude.{◌≡◌};
ghost use Rattle.std.specs.Option.{option_map};
ghost use Rattle.daylight.specs.Settings.{told};
ghost use Rattle.terms.specs.Standing.{standing};
ghost use Rattle.terms.specs.Settings.{created_item, units_of, units_item, variable_read, variable_item, relative_item, interval_item, clock_item};

use crate::created::created_of;
use crate::stage::Stage;
use crate::terms::Terms;
use daylight::rule::Rule;
use daylight::setting::Setting;
use daylight::zone::Zone;
use ditems::moves::move_of;
use ditems::times::time_item;
use quantity::durations::variable_of;
use quantity::units::Units;
use quantity::variable::Variable;
use text::two_digits;

// An Option and no TryFrom, whose error would say no more than None.
fn units_of(rest: &[u8]) -> Option<Units>
    ensures { result ≡ units_of rest.now }
{
    match rest {
        [b'E'] => Some(Units::English),
        [b'S'] => Some(Units::Si),
        _ => None,
    }
}

#[tactic(auto, unfolding(crate::specs::Settings::variable_read))]
fn read_variable(unit: u8, a: u8, b: u8) -> Option<Variable>
    ensures { option_map (λ v. v.number) result ≡ variable_read unit a b }
{
    variable_of(unit, two_digits(a, b)?)
}

impl Terms {
    // DC: the creation time.
    #[tactic(auto, unfolding(crate::specs::Settings::created_item))]
    pub(crate) fn with_created<R: Rule>(
        self,
        rest: &[u8],
        zone: Zone,
        setting: &Setting<'_, R>,
    ) -> Option<Terms>
        ensures { let S = told R.daylight setting.now in option_map standing result ≡ created_item S.today S.daylight zone rest.now (standing self) }
    {
        let created = Some(created_of(rest, zone, setting)?);
        Some(Terms { created, ..self })
    }

    // DU: E for English units, S for SI.
    #[tactic(auto, unfolding(crate::specs::Settings::units_item))]
    pub(crate) fn with_units(self, rest: &[u8]) -> Option<Terms>
        ensures { option_map standing result ≡ units_item rest.now (standing self) }
    {
        let units = units_of(rest)?;
        Some(Terms { units, ..self })
    }

    // DV: a letter and two digits set the variable duration, Z clears it.
    #[tactic(auto, unfolding(crate::specs::Settings::variable_item))]
    pub(crate) fn with_variable(self, rest: &[u8]) -> Option<Terms>
        ensures { option_map standing result ≡ variable_item rest.now (standing self) }
    {
        match rest {
            [b'Z'] => Some(Terms {
                variable: None,
                ..self
            }),
            [unit, a, b] => {
                let variable = Some(read_variable(*unit, *a, *b)?);
                Some(Terms { variable, ..self })
            }
            _ => None,
        }
    }

    // DR: the relative move, not among steps.
    #[tactic(auto, unfolding(crate::specs::Settings::relative_item))]
    pub(crate) fn with_relative(self, rest: &[u8], stage: Stage) -> Option<Terms>
        ensures { option_map standing result ≡ relative_item stage rest.now (standing self) }
    {
        if stage.is_among_steps() {
            return None;
        }
        let relative = Some(move_of(rest)?);
        Some(Terms { relative, ..self })
    }

    // DI: the interval, only before steps.
    #[tactic(auto, unfolding(crate::specs::Settings::interval_item))]
    pub(crate) fn with_interval(self, rest: &[u8], stage: Stage) -> Option<Terms>
        ensures { option_map standing result ≡ interval_item stage rest.now (standing self) }
    {
        if !stage.is_before_steps() {
            return None;
        }
        let interval = Some(move_of(rest)?);
        Some(Terms { interval, ..self })
    }

    // The seven items that set the time, not among steps.
    #[tactic(auto, unfolding(crate::specs::Settings::clock_item))]
    pub(crate) fn with_time(
        self,
        letter: u8,
        rest: &[u8],
        stage: Stage,
        current_year: u16,
    ) -> Option<Terms>
        ensures { option_map standing result ≡ clock_item current_year stage letter rest.now (standing self) }
    {
        if stage.is_among_steps() {
            return None;
        }
        let groups = time_item(self.groups, letter, rest, current_year)?;
        Some(Terms { groups, ..self })
    }
}
