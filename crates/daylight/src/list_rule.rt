// Daylight by a caller's list of change days.
ghost use Rattle.daylight.specs.Listed.{list_daylight};

use crate::rule::Rule;
use crate::span::{MonthDay, is_between};
use calendar::date::Date;

// The days of a year on which daylight begins and ends, each at 02:00.
#[derive(Clone, Copy)]
pub struct Change {
    pub year: u16,
    pub first: MonthDay,
    pub last: MonthDay,
}

#[derive(Clone, Copy)]
pub struct ListRule<'a> {
    pub changes: &'a [Change],
}

// The first entry for the year counts, and an unlisted year has no daylight.
impl<'a> Rule for ListRule<'a> {
    ghost daylight = { λ l r. list_daylight l.changes.now r };

    // A loop and no `find`: that the first entry counts is seen where the loop ends at it.
    fn is_daylight(&self, reading: (Date, u32)) -> bool {
        for change in self.changes {
            if change.year == reading.0.year {
                return is_between(change.first, change.last, reading);
            }
        }
        false
    }
}
