// Words, parted by blanks and comments, and the code and value of an item.
ghost use Rattle.std.specs.Prelude.{◌≡◌, ◌+◌, ◌<◌, length, IfSome};
ghost use Rattle.items.specs.Words.{first_word, split_item, word_parts};
ghost use Rattle.std.specs.Option.{option_map};

use crate::mark::{Run, run_len, trim};

// A word, how many bytes stand before it, and what follows it.
#[derive(Clone, Copy)]
pub struct Word<'a> {
    pub lead: usize,
    pub part: &'a [u8],
    pub rest: &'a [u8],
}

// The first word, where there is one.
pub fn next_word(part: &[u8]) -> Option<Word<'_>>
    ensures value { option_map word_parts result ≡ first_word part.now }
    ensures valid { IfSome result (λ w. (0 < length w.part.now) × (w.lead + length w.part.now + length w.rest.now ≡ length part.now)) }
{
    let lead = run_len(part, Run::Blanks);
    let (_, inner) = part.split_at(lead);
    if inner.is_empty() {
        return None;
    }
    let (word, rest) = inner.split_at(run_len(inner, Run::Word));
    Some(Word {
        lead,
        part: word,
        rest,
    })
}

// The code and the value of an item: its first word, and the rest less the blanks and comments around it.
pub fn split_item(part: &[u8]) -> (&[u8], &[u8])
    ensures { (result.0.now, result.1.now) ≡ split_item part.now }
{
    match next_word(part) {
        Some(word) => {
            let (_, value) = trim(word.rest, Run::Blanks);
            (word.part, value)
        }
        None => (&[], &[]),
    }
}
