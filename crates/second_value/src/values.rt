// Values: numbers, missing ones and traces, and their conversion.
ghost use Rattle.std.specs.Prelude.{◌≡◌, ◌+◌, ◌*◌, ◌/◌, ◌<◌, pos, IfSome, IsSome};
ghost use Rattle.second_value.specs.Conversions.{IsAddable, IsConvertible, added, amount_of, converted, english, exact};
ghost use Rattle.second_value.specs.declared.values.Amount.TheVariants.{Number};

use crate::elements::{Conversion, Element};

// The number of ten-thousandths that says missing.
const MISSING: i64 = -99_990_000;

// A number is in ten-thousandths.
#[derive(Clone, Copy, Debug, PartialEq, Eq)]
pub enum Amount {
    Missing,
    Trace,
    Number(i64),
}

#[derive(Clone, Copy, Debug, PartialEq, Eq)]
pub struct Value {
    pub amount: Amount,
    pub qualifier: u8,
}

impl Amount {
    fn of(number: i64) -> Amount
        ensures { result ≡ amount_of number }
    {
        if number == MISSING {
            Amount::Missing
        } else {
            Amount::Number(number)
        }
    }
}

// The digits that a text begins with, and what stands behind them.
fn digits(text: &[u8]) -> (&[u8], &[u8]) {
    let end = text.iter().position(|b| !b.is_ascii_digit());
    text.split_at(end.unwrap_or(text.len()))
}

// A number in ten-thousandths with its qualifier.
fn read_number(text: &[u8]) -> Option<(i64, u8)> {
    // The sign is put aside while the digits are read, as both signs share what follows.
    let (negative, unsigned) = match text {
        [b'-', unsigned @ ..] => (true, unsigned),
        [b'+', unsigned @ ..] => (false, unsigned),
        _ => (false, text),
    };
    let (whole, behind) = digits(unsigned);
    let (decimals, rest) = match behind {
        [b'.', behind @ ..] => digits(behind),
        _ => behind.split_at(0),
    };
    if whole.len() > 8 || decimals.len() > 4 || (whole.is_empty() && decimals.is_empty()) {
        return None;
    }
    let qualifier = match rest {
        [] => b'Z',
        [qualifier @ b'A'..=b'Z'] => *qualifier,
        _ => return None,
    };
    let size = whole
        .iter()
        .chain(decimals.iter())
        .chain(b"0000".iter())
        .take(whole.len() + 4)
        .fold(0i64, |sum, b| {
            let digit = i64::from(b.saturating_sub(b'0'));
            sum.saturating_mul(10).saturating_add(digit)
        });
    let number = if negative {
        size.saturating_neg()
    } else {
        size
    };
    Some((number, qualifier))
}

impl Conversion {
    // The English number of an SI one, rounded half away from zero.
    fn english(self, number: i64) -> Option<i64>
        ensures value { IfSome result (λ n. n ≡ english self number) }
        ensures kept { IsConvertible self (Number number) → IsSome result }
    {
        let exact = self.exact(number)?;
        let size = self.rounded(exact.unsigned_abs())?;
        Some(if exact < 0 { -size } else { size })
    }

    // Down times the English number.
    fn exact(self, number: i64) -> Option<i64>
        ensures value { IfSome result (λ n. n ≡ exact self number) }
        ensures kept { IsConvertible self (Number number) → IsSome result }
    {
        let times = number.checked_mul(self.up)?;
        times.checked_add(self.added()?)
    }

    // What is added to a number times up.
    fn added(self) -> Option<i64>
        ensures value { IfSome result (λ n. n ≡ added self) }
        ensures kept { IsAddable self → IsSome result }
    {
        let down = i64::try_from(self.down).ok()?;
        let plus = self.plus.checked_mul(10_000)?;
        plus.checked_mul(down)
    }

    // A size divided by down, if the outcome is not too large.
    fn rounded(self, size: u64) -> Option<i64>
        ensures value { IfSome result (λ n. n ≡ pos ((size * 2 + self.down) / (self.down * 2))) }
        ensures kept { 0 < self.down → (size * 2 + self.down) / (self.down * 2) < 1000000000000 → IsSome result }
    {
        let down = u128::from(self.down);
        let rounded = (u128::from(size) * 2 + down).checked_div(down * 2)?;
        if rounded >= 1_000_000_000_000 {
            return None;
        }
        i64::try_from(rounded).ok()
    }
}

// A value as it was sent.
pub fn read_value(text: &[u8], element: Element) -> Option<Value> {
    let qualifier = b'Z';
    if text == b"M".as_slice() || text == b"MM".as_slice() {
        return Some(Value {
            amount: Amount::Missing,
            qualifier,
        });
    }
    if text == b"T".as_slice() && element.traced {
        return Some(Value {
            amount: Amount::Trace,
            qualifier,
        });
    }
    let (number, qualifier) = read_number(text)?;
    Some(Value {
        amount: Amount::of(number),
        qualifier,
    })
}

impl Value {
    // The value in English units of one that was sent in SI units, if it is not too large.
    pub fn from_si(self, conversion: Conversion) -> Option<Value>
        ensures amount { IfSome result (λ v. v.amount ≡ converted conversion self.amount) }
        ensures qualifier { IfSome result (λ v. v.qualifier ≡ self.qualifier) }
        ensures kept { IsConvertible conversion self.amount → IsSome result }
    {
        let Amount::Number(number) = self.amount else {
            return Some(self);
        };
        let amount = Amount::of(conversion.english(number)?);
        Some(Value { amount, ..self })
    }
}
