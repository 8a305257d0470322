// Lines of a text and what kind of line each is.
ghost use Rattle.std.specs.Prelude.{◌≡◌, ◌≢◌, MatchOption, drop, length, min, option_map};
ghost use Rattle.second_text.specs.Kinds.{kind_of};
ghost use Rattle.second_text.specs.Letters.{count_of, form_of, letter_of, lettered};
ghost use Rattle.second_text.specs.Parts.{place_behind};
ghost use Rattle.second_text.specs.Signs.{is_unfit, prints};
ghost use Rattle.std.specs.List.{list_all};

use crate::parts::Part;
use std::alloc::{AllocError, Global};

// A message of one station, of a table of stations, or of a series.
#[derive(Clone, Copy, Debug, PartialEq, Eq)]
pub enum Form {
    Single,
    Table,
    Series,
}

impl Form {
    // The form that a letter names.
    fn named(letter: u8) -> Option<Form>
        ensures value { result ≡ form_of letter }
        ensures letter { MatchOption result ((f : Form) → letter_of f ≢ letter) (λ f. letter_of f ≡ letter) }
    {
        match letter {
            b'A' => Some(Form::Single),
            b'B' => Some(Form::Table),
            b'E' => Some(Form::Series),
            _ => None,
        }
    }
}

// The letters that the lines of a message begin with: its form, and R where it revises.
#[derive(Clone, Copy, Debug, PartialEq, Eq)]
pub struct Letters {
    pub form: Form,
    pub revised: bool,
}

#[derive(Clone, Copy, Debug, PartialEq, Eq)]
pub enum Kind {
    Opening(Letters),
    Continuation,
    End,
    Dotted,
    Plain,
}

// The lines, without line feeds and without the carriage return before one.
pub fn lines(heap: Global, text: &[u8]) -> Result<Vec<Part<'_>>, AllocError> {
    let mut found = Vec::new(heap);
    // A piece of `split_inclusive` does not know its place.
    let mut place: usize = 0;
    for line in text.split_inclusive(|b| *b == b'\n') {
        let bytes = match line {
            [bytes @ .., b'\r', b'\n'] | [bytes @ .., b'\n'] => bytes,
            _ => line,
        };
        found.push(Part::new(bytes, place))?;
        place = place.saturating_add(line.len());
    }
    Ok(found)
}

impl Letters {
    // What stands behind these letters in a line that begins with them.
    pub fn behind(self, line: Part<'_>) -> Part<'_>
        ensures bytes { result.bytes.now ≡ drop (count_of self) line.entry.bytes.now }
        ensures place { result.place ≡ place_behind line.entry.place (min (count_of self) (length line.entry.bytes.now)) }
    {
        let count: usize = if self.revised { 3 } else { 2 };
        let (_, behind) = line.split(count.min(line.bytes.len()));
        behind
    }
}

// The letters of a line and what stands behind them.
pub(crate) fn lettered(line: Part<'_>) -> Option<(Letters, Part<'_>)>
    ensures { option_map (λ r. (r.0, r.1.bytes.now)) result ≡ lettered line.entry.bytes.now }
{
    let form = Form::named(line.bytes.get(1).copied()?)?;
    let revised = line.bytes.get(2).copied() == Some(b'R');
    let letters = Letters { form, revised };
    Some((letters, letters.behind(line)))
}

pub fn kind_of(line: Part<'_>) -> Kind
    ensures { result ≡ kind_of line.entry.bytes.now }
{
    if !line.bytes.starts_with(b".") {
        return Kind::Plain;
    }
    if line.bytes.starts_with(b".END") {
        return Kind::End;
    }
    let Some((letters, behind)) = lettered(line) else {
        return Kind::Dotted;
    };
    match behind.bytes {
        [] | [b' ', ..] => Kind::Opening(letters),
        [b'0'..=b'9', ..] => Kind::Continuation,
        _ => Kind::Dotted,
    }
}

// Whether a line is too long or has a byte that does not print.
pub fn is_unfit(line: &[u8]) -> bool
    ensures { result ≡ is_unfit line.now }
{
    line.len() > 1000 || !prints(line)
}

fn prints(line: &[u8]) -> bool
    ensures { result ≡ list_all prints line.now }
{
    line.iter().all(|b| matches!(*b, b' '..=b'~'))
}

// The line with its comments turned to blanks.
pub fn uncommented(heap: Global, line: &[u8]) -> Result<Vec<u8>, AllocError> {
    let mut out = Vec::new(heap);
    // A flag, since whether a byte is inside hangs on the colons before it.
    let mut inside = false;
    for b in line {
        let mark = *b == b':';
        out.push(if mark || inside { b' ' } else { *b })?;
        inside ^= mark;
    }
    Ok(out)
}
