// Damage of single bytes.
ghost use Rattle.std.specs.Prelude.{◌≡◌, IfOk};
ghost use Rattle.cases.specs.Harms.{harm_of, harmed};

use std::alloc::{AllocError, Global};

#[derive(Clone, Copy, Debug, PartialEq, Eq)]
pub enum Harm {
    Lost,
    Doubled,
    Changed(u8),
}

// Bytes that mean something in a message, and some that stand in none.
const SIGNS: [u8; 24] = [
    b'/', b' ', b'.', b':', b'A', b'D', b'R', b'Z', b'0', b'1', b'9', b'M', b'-', b'+', b'E', b'B',
    b'H', b'T', b'V', b'a', 10, 13, 9, 200,
];

// The harm done to the byte at a place in a round: another byte each round after the first two. A
// round is a number and no kind, since from the third on only the byte changes with it.
pub fn harm_at(place: usize, round: usize) -> Harm
    ensures { result ≡ harm_of place round }
{
    match round {
        0 => Harm::Lost,
        1 => Harm::Doubled,
        _ => {
            let turn = place.wrapping_mul(7).wrapping_add(round.wrapping_mul(5));
            Harm::Changed(SIGNS[turn % SIGNS.len()])
        }
    }
}

// The text with harm done to the byte at a place.
pub fn damaged(heap: Global, text: &[u8], at: usize, harm: Harm) -> Result<Vec<u8>, AllocError>
    ensures { IfOk result (λ out. out.items ≡ harmed harm at text.now) }
{
    let mut out = text.to_vec(heap)?;
    if at < text.len() {
        match harm {
            Harm::Lost => {
                out.remove(at);
            }
            Harm::Doubled => out.insert(at, text[at])?,
            Harm::Changed(to) => out[at] = to,
        }
    }
    Ok(out)
}
