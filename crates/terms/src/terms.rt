// The terms that stand for the next value of a message.
ghost use Rattle.std.specs.Prelude.{◌≡◌};
ghost use Rattle.terms.specs.Standing.{standing, opening as the_opening};

use calendar::date::Date;
use daylight::zone::Zone;
use ditems::groups::Groups;
use instants::moves::Move;
use instants::utc_minute::UtcMinute;
use quantity::units::Units;
use quantity::variable::Variable;

// Clauses see them by `standing` and not by an `impl Model`: since terms are Copy, that would have to make terms of the plain numbers
// again, and of numbers out of range there are none.
#[derive(Clone, Copy)]
pub struct Terms {
    pub groups: Groups,
    pub created: Option<UtcMinute>,
    pub units: Units,
    pub variable: Option<Variable>,
    pub relative: Option<Move>,
    pub interval: Option<Move>,
}

impl Terms {
    // The terms of a message at its date: 12:00 in UTC, 24:00 in other zones.
    pub fn opening(date: Date, zone: Zone) -> Terms
        ensures { standing result ≡ the_opening date zone }
    {
        Terms {
            groups: Groups::new(date, if zone.is_utc() { 12 } else { 24 }),
            created: None,
            units: Units::English,
            variable: None,
            relative: None,
            interval: None,
        }
    }
}
