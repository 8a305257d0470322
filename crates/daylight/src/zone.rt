// Zones and whether they keep daylight time.
ghost use Rattle.std.specs.Prelude.{◌≡◌, ◌==◌};
ghost use Rattle.daylight.specs.Zones.{hours_of, saving_of, zone_of, keeps_daylight};

use crate::rule::Rule;
use calendar::date::Date;

#[derive(Clone, Copy)]
pub enum Saving {
    Standard,
    Daylight,
    ByRule,
}

// A zone so many hours behind UTC in standard time.
#[derive(Clone, Copy)]
pub struct Zone {
    pub hours: u8,
    pub saving: Saving,
}

impl Zone {
    pub const UTC: Zone = Zone {
        hours: 0,
        saving: Saving::Standard,
    };

    // Told by the hours alone: each other zone is some hours behind.
    pub fn is_utc(self) -> bool
        ensures { result ≡ (self.hours == 0) }
    {
        self.hours == Zone::UTC.hours
    }
}

// The zone letters and their hours behind UTC. An Option and no TryFrom, whose error would say no more than None.
#[tactic(auto, unfolding(crate::specs::Zones::hours_of))]
fn hours_behind(letter: u8) -> Option<u8>
    ensures { result ≡ hours_of letter }
{
    match letter {
        b'A' => Some(4),
        b'E' => Some(5),
        b'C' => Some(6),
        b'M' => Some(7),
        b'P' => Some(8),
        b'L' => Some(9),
        _ => None,
    }
}

// What a letter behind the zone's says, an Option as above.
#[tactic(auto, unfolding(crate::specs::Zones::saving_of))]
fn saving_of(letter: u8) -> Option<Saving>
    ensures { result ≡ saving_of letter }
{
    match letter {
        b'S' => Some(Saving::Standard),
        b'D' => Some(Saving::Daylight),
        _ => None,
    }
}

// The zone that a word names: Z, which is UTC, a zone letter alone, which goes by the daylight rule, or one with S or D
// behind it.
#[tactic(auto, unfolding(crate::specs::Zones::one_letter, crate::specs::Zones::two_letters))]
pub fn zone_of(word: &[u8]) -> Option<Zone>
    ensures { result ≡ zone_of word.now }
{
    let (hours, saving) = match *word {
        [b'Z'] => return Some(Zone::UTC),
        [letter] => (hours_behind(letter)?, Saving::ByRule),
        [letter, second] => (hours_behind(letter)?, saving_of(second)?),
        _ => return None,
    };
    Some(Zone { hours, saving })
}

pub fn is_saving<R: Rule>(rule: &R, zone: Zone, reading: (Date, u32)) -> bool
    ensures { result ≡ keeps_daylight (R.Rule.daylight rule.now) zone.saving reading }
{
    match zone.saving {
        Saving::Standard => false,
        Saving::Daylight => true,
        Saving::ByRule => rule.is_daylight(reading),
    }
}
