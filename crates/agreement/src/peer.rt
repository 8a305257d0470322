// The first decoder as a peer of the second.
ghost use Rattle.std.specs.Prelude.{◌+◌, length, min};
ghost use Rattle.agreement.specs.Agreement.{as_by_rules, day_of};
ghost use Rattle.daylight.specs.Settings.{setting};
ghost use Rattle.daylight.specs.Sundays.{law_daylight};

use calendar::date::Date;
use cases::Case;
use second::Outcome;
use std::alloc::{AllocError, Global};
use trials::Peer;

// The first decoder, under the current date of a case so many years on.
#[derive(Clone, Copy)]
pub struct FirstDecoder {
    pub years_on: u16,
}

impl Peer for FirstDecoder {
    ghost gives = { λ d case text outcome. as_by_rules (setting (day_of case d.years_on) (λ r. law_daylight r)) (min case.room (length text + 1)) text outcome };

    fn agrees(
        &self,
        heap: Global,
        case: &Case,
        text: &[u8],
        outcome: &Outcome,
    ) -> Result<bool, AllocError> {
        let today = Date {
            year: case.year.saturating_add(self.years_on),
            month: case.month,
            day: case.day,
        };
        crate::compare(heap, today, case.room, text, outcome)
    }
}
