// A daylight rule: the local readings at which daylight time is kept.
ghost use Rattle.std.specs.Prelude.{◌≡◌, ℕ, Bool};
ghost use Rattle.calendar.specs.declared.date.Date.{Date};
ghost use Rattle.daylight.specs.Rules.{Rules};

use calendar::date::Date;

pub trait Rule {
    ghost daylight: { Self → (Date × ℕ) → Bool };

    fn is_daylight(&self, reading: (Date, u32)) -> bool
        ensures { result ≡ daylight self.now reading };
}

// The law rule goes by Sundays, and the list rule by the first entry for the year.
pub fn rules()
    ensures { Rules }
{}
