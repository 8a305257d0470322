// The table of duration letters and their numbers, and the durations that a DV item gives.
ghost use Rattle.std.specs.Prelude.{◌≡◌};
ghost use Rattle.std.specs.Option.{option_map};
ghost use Rattle.quantity.specs.Codes.{durations, duration_number, is_duration, variable_of, variable_base};

use crate::variable::Variable;

static DURATIONS: [(u8, u16); 20] = [
    (b'I', 0),
    (b'U', 1),
    (b'C', 15),
    (b'J', 30),
    (b'H', 1001),
    (b'B', 1002),
    (b'T', 1003),
    (b'F', 1004),
    (b'Q', 1006),
    (b'A', 1008),
    (b'K', 1012),
    (b'L', 1018),
    (b'D', 2001),
    (b'W', 2007),
    (b'M', 3001),
    (b'Y', 4001),
    (b'S', 5001),
    (b'R', 5002),
    (b'P', 5004),
    (b'X', 5005),
];

fn table() -> &'static [(u8, u16)]
    ensures { result.now ≡ durations }
{
    &DURATIONS
}

// The number of a fixed duration.
pub fn duration_of(letter: u8) -> Option<u16>
    ensures { result ≡ duration_number letter }
{
    table().iter().find(|row| row.0 == letter).map(|row| row.1)
}

// A duration letter other than Z: V, or one with a fixed number.
pub fn is_duration(letter: u8) -> bool
    ensures { result ≡ is_duration letter }
{
    letter == b'V' || duration_of(letter).is_some()
}

// What is added to the two digits behind the letter of a DV item. An Option and no TryFrom, whose error would say no more than None.
fn variable_base(unit: u8) -> Option<u16>
    ensures { result ≡ variable_base unit }
{
    match unit {
        b'N' => Some(0),
        b'H' => Some(1000),
        b'D' => Some(2000),
        b'M' => Some(3000),
        b'Y' => Some(4000),
        b'E' => Some(6000),
        _ => None,
    }
}

// The duration that a DV item gives by its letter and its two digits.
pub fn variable_of(unit: u8, two: u8) -> Option<Variable>
    ensures { option_map (λ v. v.number) result ≡ variable_of unit two }
{
    if two >= 100 {
        return None;
    }
    let base = variable_base(unit)?;
    Some(Variable {
        number: base + u16::from(two),
    })
}
