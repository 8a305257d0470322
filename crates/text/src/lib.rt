// Signs of text: digits, capitals and the numbers that digits write.
#![tactic(auto)]

ghost use Rattle.std.specs.Prelude.{◌≡◌, ◌<◌, IfSome};
ghost use Rattle.text.specs.Signs.{digit, capital, sign, pair_of};

pub fn is_digit(b: u8) -> bool
    ensures { result ≡ digit b }
{
    b.is_ascii_digit()
}

pub fn is_capital(b: u8) -> bool
    ensures { result ≡ capital b }
{
    b.is_ascii_uppercase()
}

// A capital or a digit.
pub fn is_sign(b: u8) -> bool
    ensures { result ≡ sign b }
{
    is_capital(b) || is_digit(b)
}

// The number that two digits write.
pub fn two_digits(a: u8, b: u8) -> Option<u8>
    ensures value { result ≡ pair_of a b }
    ensures valid { IfSome result (λ n. n < 100) }
{
    (is_digit(a) && is_digit(b)).then(|| (a - b'0') * 10 + (b - b'0'))
}
