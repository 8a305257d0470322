// The moves of DR and DI: a unit's letter, perhaps a sign, and one or two digits.
ghost use Rattle.std.specs.Prelude.{◌≡◌, ◌<◌, IfSome};
ghost use Rattle.ditems.specs.Moves.{unit_of, figures, count_of, move_of};

use instants::moves::{Move, Unit};
use text::{is_digit, two_digits};

// An Option and no TryFrom, whose error would say no more than None.
fn unit_of(letter: u8) -> Option<Unit>
    ensures { result ≡ unit_of letter }
{
    match letter {
        b'S' => Some(Unit::Second),
        b'N' => Some(Unit::Minute),
        b'H' => Some(Unit::Hour),
        b'D' => Some(Unit::Day),
        b'M' => Some(Unit::Month),
        b'Y' => Some(Unit::Year),
        b'E' => Some(Unit::MonthEnd),
        _ => None,
    }
}

// The number that one or two digits write.
fn read_figures(bytes: &[u8]) -> Option<u8>
    ensures value { result ≡ figures bytes.now }
    ensures valid { IfSome result (λ n. n < 100) }
{
    match *bytes {
        [a] if is_digit(a) => Some(a - b'0'),
        [a, b] => two_digits(a, b),
        _ => None,
    }
}

// Perhaps a sign, and figures.
#[tactic(auto, unfolding(crate::specs::Moves::count_of))]
fn read_count(bytes: &[u8]) -> Option<i8>
    ensures { result ≡ count_of bytes.now }
{
    match bytes {
        [b'-', rest @ ..] => Some(-(read_figures(rest)? as i8)),
        [b'+', rest @ ..] => Some(read_figures(rest)? as i8),
        _ => Some(read_figures(bytes)? as i8),
    }
}

// The move that a unit's letter and a count say.
#[tactic(auto, unfolding(crate::specs::Moves::move_of))]
pub fn move_of(bytes: &[u8]) -> Option<Move>
    ensures { result ≡ move_of bytes.now }
{
    let [letter, rest @ ..] = bytes else {
        return None;
    };
    let unit = unit_of(*letter)?;
    let count = read_count(rest)?;
    Some(Move { unit, count })
}
