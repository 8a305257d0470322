// Amounts as messages write them.
ghost use Rattle.std.specs.Prelude.{◌≡◌, ◌^◌, ◌<◌, ◌≤◌, length, IfSome, ◌==◌, position};
ghost use Rattle.std.specs.Option.{option_map};
ghost use Rattle.quantity.specs.Values.{stands_for, value_of};
ghost use Rattle.values.specs.Numbers.{numeral as numeral_of, size_from, size_of, amount_of};

use quantity::make::value_from;
use quantity::value::Value;
use text::is_digit;

// The number that at most so many digits write.
// A loop and no try_fold, whose closure could not know that the number fits.
fn numeral(digits: &[u8], most: usize) -> Option<u64>
    requires { most ≤ 8 }
    ensures value { result ≡ numeral_of most digits.now }
    ensures small { IfSome result (λ n. (n < 10 ^ length digits.now) × (length digits.now ≤ most)) }
{
    if digits.len() > most {
        return None;
    }
    let mut n: u64 = 0;
    for b in digits {
        if !is_digit(*b) {
            return None;
        }
        n = n * 10 + (*b - b'0') as u64;
    }
    Some(n)
}

// Where the first point stands.
fn point_at(number: &[u8]) -> Option<usize>
    ensures { result ≡ position (λ b. b == 46) number.now }
{
    number.iter().position(|b| *b == b'.')
}

// The size in ten-thousandths that whole digits and decimals write.
fn size_from(whole: &[u8], decimals: &[u8]) -> Option<u64>
    ensures value { result ≡ size_from whole.now decimals.now }
    ensures small { IfSome result (λ n. n < 10 ^ 12) }
{
    if whole.is_empty() && decimals.is_empty() {
        return None;
    }
    let units = numeral(whole, 8)?;
    let parts = numeral(decimals, 4)?;
    Some(units * 10_000 + parts * 10u64.pow(4 - decimals.len() as u32))
}

fn size_of(number: &[u8]) -> Option<u64>
    ensures value { result ≡ size_of number.now }
    ensures small { IfSome result (λ n. n < 10 ^ 12) }
{
    match point_at(number) {
        Some(place) => size_from(&number[..place], &number[place + 1..]),
        None => size_from(number, &[]),
    }
}

// The value that an amount with its sign says, -9999 being a missing one.
pub(crate) fn value_sent(number: &[u8]) -> Option<Value>
    ensures { option_map (λ v. stands_for (value_of v)) result ≡ amount_of number.now }
{
    match number {
        [b'-', rest @ ..] => value_from(-(size_of(rest)? as i64)),
        [b'+', rest @ ..] => value_from(size_of(rest)? as i64),
        _ => value_from(size_of(number)? as i64),
    }
}
