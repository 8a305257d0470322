// Amounts, values and qualifiers from the numbers and letters that they hold.
// They come in an Option and not by TryFrom, whose error would say no more than None.
ghost use Rattle.std.specs.Prelude.{◌≡◌, if◌then◌else◌, Some, None};
ghost use Rattle.quantity.specs.Amounts.{is_absent, holdable};
ghost use Rattle.quantity.specs.Values.{value_of};
ghost use Rattle.std.specs.Option.{option_map};
ghost use Rattle.text.specs.Signs.{capital};

use crate::amount::Amount;
use crate::qualifier::Qualifier;
use crate::value::Value;
use text::is_capital;

// 10^8 in ten-thousandths: each amount is smaller in size.
const AMOUNT_LIMIT: i64 = 1_000_000_000_000;

// -9999 in ten-thousandths, which says that a value is missing.
const ABSENT: i64 = -99_990_000;

impl Amount {
    // The amount of a number of ten-thousandths, where a record can hold it.
    pub fn new(tenthousandths: i64) -> Option<Amount>
        ensures { option_map (λ a. a.tenthousandths) result ≡ (if holdable tenthousandths then Some tenthousandths else None) }
    {
        let is_small = tenthousandths > -AMOUNT_LIMIT && tenthousandths < AMOUNT_LIMIT;
        if is_small && tenthousandths != ABSENT {
            Some(Amount { tenthousandths })
        } else {
            None
        }
    }
}

impl Qualifier {
    // What stands for a qualifier that was not sent.
    pub const NONE: Qualifier = Qualifier { letter: b'Z' };

    // The qualifier of a letter, where it is a capital.
    pub fn new(letter: u8) -> Option<Qualifier>
        ensures { option_map (λ q. q.letter) result ≡ (if capital letter then Some letter else None) }
    {
        if is_capital(letter) {
            Some(Qualifier { letter })
        } else {
            None
        }
    }
}

// The value that an amount says, -9999 being a missing one; none where the amount is too large.
pub fn value_from(tenthousandths: i64) -> Option<Value>
    ensures { option_map value_of result ≡ (if is_absent tenthousandths then Some None else (if holdable tenthousandths then Some (Some tenthousandths) else None)) }
{
    if tenthousandths == ABSENT {
        Some(Value::Missing)
    } else {
        Amount::new(tenthousandths).map(Value::Known)
    }
}
