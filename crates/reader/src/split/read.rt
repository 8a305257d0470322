// How the lines of a text are found.
ghost use Rattle.std.specs.Prelude.{◌≡◌, ◌+◌, ◌^◌, ◌≤◌, ◌==◌, length, position, MatchOption};
ghost use Rattle.reader.specs.Cut.{LinesCut, LinesJoin};
ghost use Rattle.reader.specs.Lines.{LineStep, less_return, lines, lines_ahead, rest_of};
ghost use Rattle.std.specs.Iterator.{item_count};

use super::{Line, Lines};

// How many bytes stand before the first line feed, where there is one.
fn line_end(rest: &[u8]) -> Option<usize>
    ensures { result ≡ position (λ b. b == 10) rest.now }
{
    rest.iter().position(|b| *b == b'\n')
}

// A line less the carriage return that stands before its line feed.
fn less_return(line: &[u8]) -> &[u8]
    ensures { result.now ≡ less_return line.now }
{
    match line {
        [front @ .., b'\r'] => front,
        _ => line,
    }
}

impl<'a> Line<'a> {
    // The line that stands at a place, none where its last byte would have no place.
    pub fn new(part: &'a [u8], place: usize) -> Option<Line<'a>>
        ensures { MatchOption result (2 ^ 64 ≤ place + length part.now) (λ l. (l.part.now ≡ part.now) × (l.place ≡ place)) }
    {
        if part.len() <= usize::MAX - place {
            Some(Line { part, place })
        } else {
            None
        }
    }
}

impl<'a> Lines<'a> {
    pub fn new(text: &'a [u8]) -> Lines<'a>
        ensures whole { lines_ahead result ≡ lines text.now }
        ensures rest { rest_of result ≡ text.now }
        ensures same { result.text.now ≡ text.now }
    {
        Lines { text, pos: 0 }
    }

    // The text behind the lines that were read.
    pub fn rest(&self) -> &'a [u8]
        ensures { result.now ≡ rest_of self.now }
    {
        let (_, rest) = self.text.split_at(self.pos);
        rest
    }

    pub fn next_line(&mut self) -> Option<Line<'a>>
        ensures { LineStep self.old result self.new }
    {
        let text = self.text;
        let place = self.pos;
        let (_, rest) = text.split_at(place);
        if rest.is_empty() {
            return None;
        }
        match line_end(rest) {
            Some(len) => {
                self.pos = place + len + 1;
                let part = less_return(&rest[..len]);
                Some(Line { part, place })
            }
            None => {
                self.pos = text.len();
                Some(Line { part: rest, place })
            }
        }
    }
}

impl<'a> Iterator for Lines<'a> {
    type Item = Line<'a>;

    ghost next_gives = { LineStep };

    ghost remaining = { item_count lines_ahead };

    fn next(&mut self) -> Option<Line<'a>> {
        self.next_line()
    }
}

// States that the lines, joined with their ends, are the text.
pub fn lines_are_cut()
    ensures { LinesCut }
{}

// States that a text that ends a line, and another behind it, have the lines of both.
pub fn lines_join()
    ensures { LinesJoin }
{}
