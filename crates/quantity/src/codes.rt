// Parameter codes: how two to seven signs are completed and judged.
ghost use Rattle.std.specs.Prelude.{◌≡◌, Some, slice_index, slice_index_or};
ghost use Rattle.std.specs.Option.{option_map};
ghost use Rattle.quantity.specs.Elements.{element_of};
ghost use Rattle.quantity.specs.Codes.{is_type, full_code, unless_z, checked_code, code_of};

use crate::code::Code;
use crate::durations::is_duration;
use crate::element::Element;
use crate::elements::element_of;
use text::{is_capital, is_sign};

// A type letter other than Z.
fn is_type(letter: u8) -> bool
    ensures { result ≡ is_type letter }
{
    is_capital(letter) && letter != b'Z'
}

fn is_full(signs: &[u8; 7]) -> bool
    ensures { result ≡ full_code signs.now }
{
    element_of(signs[0], signs[1]).is_some()
        && is_duration(signs[2])
        && is_type(signs[3])
        && is_sign(signs[4])
        && is_sign(signs[5])
        && is_sign(signs[6])
}

// The code of seven signs, where nothing is left out.
pub fn code_from(signs: [u8; 7]) -> Option<Code>
    ensures { option_map (λ c. c.signs) result ≡ checked_code signs }
{
    if is_full(&signs) {
        Some(Code { signs })
    } else {
        None
    }
}

// The sign at a place of a code, where missing ends are Z.
fn sign_at(code: &[u8], place: usize) -> u8
    ensures { result ≡ slice_index_or code.now place 90 }
{
    code.get(place).copied().unwrap_or(b'Z')
}

fn unless_z(meant: u8, sign: u8) -> u8
    ensures { result ≡ unless_z meant sign }
{
    if sign == b'Z' { meant } else { sign }
}

// The full code that two to seven signs mean.
pub fn code_of(code: &[u8]) -> Option<Code>
    ensures { option_map (λ c. c.signs) result ≡ code_of code.now }
{
    if code.len() < 2 || code.len() > 7 {
        return None;
    }
    let element = element_of(code[0], code[1])?;
    code_from([
        sign_at(code, 0),
        sign_at(code, 1),
        unless_z(element.duration, sign_at(code, 2)),
        unless_z(b'R', sign_at(code, 3)),
        sign_at(code, 4),
        sign_at(code, 5),
        sign_at(code, 6),
    ])
}

impl Code {
    // The element that its two letters name.
    #[tactic(auto, using(crate::proofs::Checks::element_known))]
    pub fn element(self) -> Element
        ensures { element_of (slice_index self.signs 0) (slice_index self.signs 1) ≡ Some result }
    {
        element_of(self.signs[0], self.signs[1]).unwrap()
    }
}
