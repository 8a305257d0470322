// What a reading says: an amount, or that it is missing.
// It is no Option: missing is something that was said, while None in a record is a field that was not sent.
use crate::amount::Amount;

#[derive(Clone, Copy)]
pub enum Value {
    Missing,
    Known(Amount),
}
