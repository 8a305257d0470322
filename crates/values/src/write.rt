// Values as records show them: fourteen columns with four decimals.
ghost use Rattle.std.specs.Prelude.{◌≡◌, ◌≤◌, length, Some, ◌==◌};
ghost use Rattle.std.specs.List.{prefix_len};
ghost use Rattle.quantity.specs.Values.{value_of};
ghost use Rattle.values.specs.Writing.{written};

use crate::digits::digits;
use quantity::amount::Amount;
use quantity::value::Value;

fn zeros_at_front(digits: &[u8]) -> usize
    ensures value { result ≡ prefix_len (λ c. c == 48) digits.now }
    ensures within { result ≤ length digits.now }
{
    digits.iter().take_while(|b| **b == b'0').count()
}

// The columns of an amount: blanks in place of needless zeros, and the sign on the last of them.
fn amount_text(amount: Amount) -> [u8; 14]
    ensures { result ≡ written (Some amount.tenthousandths) }
{
    let tenthousandths = amount.tenthousandths;
    let size = tenthousandths.unsigned_abs();
    let whole = digits::<8>((size / 10_000) as u32);
    let zeros = zeros_at_front(&whole[..7]);
    let [i, j, k, l] = digits::<4>((size % 10_000) as u32);
    let mut text = [
        b' ', b' ', b' ', b' ', b' ', b' ', b' ', b' ', b' ', b'.', i, j, k, l,
    ];
    // Digits put into blanks: to fill blanks over digits would be a call of memset, which the archive for C would then need from outside.
    text[zeros + 1..9].copy_from_slice(&whole[zeros..]);
    if tenthousandths < 0 {
        text[zeros] = b'-';
    }
    text
}

// The columns of a value.
pub fn value_text(value: Value) -> [u8; 14]
    ensures { result ≡ written (value_of value) }
{
    match value {
        Value::Missing => *b"    -9999.0000",
        Value::Known(amount) => amount_text(amount),
    }
}
