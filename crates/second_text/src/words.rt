// Names, and the number of a continuation.
ghost use Rattle.std.specs.Prelude.{◌≡◌};
ghost use Rattle.second_text.specs.Signs.{is_name, is_sign};
ghost use Rattle.std.specs.List.{list_all};

use crate::lines::{Letters, lettered};
use crate::parts::Part;

// Whether a word is 3 to 8 capitals or digits.
pub fn is_name(word: &[u8]) -> bool
    ensures { result ≡ is_name word.now }
{
    (3..=8).contains(&word.len()) && has_signs_alone(word)
}

fn has_signs_alone(word: &[u8]) -> bool
    ensures { result ≡ list_all is_sign word.now }
{
    word.iter().all(|b| matches!(*b, b'A'..=b'Z' | b'0'..=b'9'))
}

// The items of a continuation, if it has the letters and the number asked for.
pub fn continued(line: Part<'_>, letters: Letters, number: u16) -> Option<Part<'_>> {
    let (own, behind) = lettered(line)?;
    let (given, before_items) = match behind.bytes {
        [ones @ b'0'..=b'9', b' ', ..] => (u16::from(*ones - b'0'), 2),
        // Written out, since this crate leans on no other.
        [tens @ b'0'..=b'9', ones @ b'0'..=b'9', b' ', ..] => {
            (u16::from(*tens - b'0') * 10 + u16::from(*ones - b'0'), 3)
        }
        _ => return None,
    };
    if own != letters || given != number {
        return None;
    }
    let (_, items) = behind.split(before_items);
    Some(items)
}
