// What a line is by how it begins, the number of a continuation, and which lines may be read at all.
ghost use Rattle.std.specs.Prelude.{◌≡◌, ◌<◌, ◌≤◌, length, drop, IfSome};
ghost use Rattle.reader.specs.Kinds.{all_printable, blank_here, continuation_of, ending, figures, kind_of, lettered, letters_of, numbered, placed, printable, readable, revisable};
ghost use Rattle.reader.specs.Told.{KindsTold, LettersTold, NumbersTold};
ghost use Rattle.std.specs.Option.{option_map};

use text::{is_digit, two_digits};

const LONGEST_LINE: usize = 1000;

#[derive(Clone, Copy, PartialEq, Eq)]
pub enum Form {
    A,
    B,
    E,
}

// The flag of an opening and of a continuation says whether R marks a revision. It stands beside the form and not in one
// type with it: the form alone chooses how items are read, and the flag alone goes into the records.
#[derive(Clone, Copy, PartialEq, Eq)]
pub enum LineKind {
    Opening(Form, bool),
    Continuation(Form, bool),
    End,
    Dotted,
    Other,
}

// The number of a continuation, and the offset in its line just behind that number.
#[derive(Clone, Copy, PartialEq, Eq)]
pub struct Continuation {
    pub number: u8,
    pub start: usize,
}

fn by_number(form: Form, is_revised: bool, rest: &[u8]) -> LineKind
    ensures { result ≡ numbered form is_revised rest.now }
{
    match rest {
        [] | [b' ', ..] => LineKind::Opening(form, is_revised),
        [b'0'..=b'9', ..] => LineKind::Continuation(form, is_revised),
        _ => LineKind::Dotted,
    }
}

fn by_revision(form: Form, rest: &[u8]) -> LineKind
    ensures { result ≡ revisable form rest.now }
{
    match rest {
        [b'R', rest @ ..] => by_number(form, true, rest),
        _ => by_number(form, false, rest),
    }
}

fn by_end(rest: &[u8]) -> LineKind
    ensures { result ≡ ending rest.now }
{
    match rest {
        [b'N', b'D', ..] => LineKind::End,
        _ => by_revision(Form::E, rest),
    }
}

fn by_letter(rest: &[u8]) -> LineKind
    ensures { result ≡ lettered rest.now }
{
    match rest {
        [b'A', rest @ ..] => by_revision(Form::A, rest),
        [b'B', rest @ ..] => by_revision(Form::B, rest),
        [b'E', rest @ ..] => by_end(rest),
        _ => LineKind::Dotted,
    }
}

pub fn kind_of(line: &[u8]) -> LineKind
    ensures { result ≡ kind_of line.now }
{
    match line {
        [b'.', rest @ ..] => by_letter(rest),
        _ => LineKind::Other,
    }
}

// How many bytes the dot, the form's letter and R, if it is there, take.
pub fn letters_len(line: &[u8]) -> usize
    ensures value { result ≡ letters_of line.now }
    ensures valid { (result ≤ length line.now) × (result ≤ 3) }
{
    match line {
        [] => 0,
        [_] => 1,
        [_, _, b'R', ..] => 3,
        _ => 2,
    }
}

fn is_blank_here(b: u8) -> bool
    ensures { result ≡ blank_here b }
{
    matches!(b, b' ' | b':')
}

// The number that stands behind the letters, where a blank follows its one or two digits.
fn number_behind(line: &[u8], letters: usize) -> Option<Continuation>
    requires { letters ≤ length line.now }
    ensures value { result ≡ option_map (placed letters) (figures (drop letters line.now)) }
    ensures valid { IfSome result (λ c. (c.number < 100) × (c.start < length line.now)) }
{
    let (_, behind) = line.split_at(letters);
    match behind {
        [a, b, ..] if is_digit(*a) && is_blank_here(*b) => Some(Continuation {
            number: *a - b'0',
            start: letters + 1,
        }),
        [a, b, c, ..] if is_blank_here(*c) => Some(Continuation {
            number: two_digits(*a, *b)?,
            start: letters + 2,
        }),
        _ => None,
    }
}

// The number of a continuation with the place behind it, where a blank follows one or two digits.
pub fn continuation_of(line: &[u8]) -> Option<Continuation>
    ensures value { result ≡ continuation_of line.now }
    ensures valid { IfSome result (λ c. (c.number < 100) × (c.start < length line.now)) }
{
    match kind_of(line) {
        LineKind::Continuation(_, _) => number_behind(line, letters_len(line)),
        _ => None,
    }
}

// Whether a line may be read: it is not too long, and each byte is printable.
pub fn is_readable(line: &[u8]) -> bool
    ensures { result ≡ readable line.now }
{
    line.len() <= LONGEST_LINE && are_printable(line)
}

// Printable ASCII, and the blank.
fn is_printable(b: u8) -> bool
    ensures { result ≡ printable b }
{
    matches!(b, b' '..=b'~')
}

fn are_printable(line: &[u8]) -> bool
    ensures { result ≡ all_printable line.now }
{
    line.iter().all(|b| is_printable(*b))
}

// States how a line's beginning tells its kind, its letters and its number, and that no line of a kind, and none with a number, begins
// otherwise.
pub fn kinds_are_told()
    ensures kinds { KindsTold }
    ensures letters { LettersTold }
    ensures numbers { NumbersTold }
{}
