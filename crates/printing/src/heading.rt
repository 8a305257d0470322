// What is printed above a line's words and items.
ghost use Rattle.std.specs.Prelude.{◌≡◌, Some};
ghost use Rattle.printing.specs.Texts.{form_text, heading_text, kind_text, state_text};
ghost use Rattle.reader.specs.Lines.{line_piece};

use reader::{Form, Line, LineKind, is_readable, kind_of};
use std::fmt;

// The form of an opening or a continuation, and whether it is a revision.
#[derive(Clone, Copy)]
struct FormName(Form, bool);

impl fmt::Display for FormName {
    ghost output = { λ n. Some (form_text n.0 n.1) };

    fn fmt<W: fmt::Write>(&self, f: &mut fmt::Formatter<W>) -> fmt::Result {
        let letter = match self.0 {
            Form::A => 'A',
            Form::B => 'B',
            Form::E => 'E',
        };
        let mark = if self.1 { "R" } else { "" };
        write!(f, "{letter}{mark}")
    }
}

#[derive(Clone, Copy)]
struct KindName(LineKind);

impl fmt::Display for KindName {
    ghost output = { λ n. Some (kind_text n.0) };

    fn fmt<W: fmt::Write>(&self, f: &mut fmt::Formatter<W>) -> fmt::Result {
        match self.0 {
            LineKind::Opening(form, revised) => write!(f, "opening {}", FormName(form, revised)),
            LineKind::Continuation(form, revised) => {
                write!(f, "continuation {}", FormName(form, revised))
            }
            LineKind::End => f.write_str("end"),
            LineKind::Dotted => f.write_str("dotted"),
            LineKind::Other => f.write_str("other"),
        }
    }
}

fn state_name(line: &[u8]) -> &'static str
    ensures { result.now ≡ state_text line.now }
{
    if is_readable(line) {
        "readable"
    } else {
        "unreadable"
    }
}

// A line's place, length and kind, and whether it may be read.
#[derive(Clone, Copy)]
pub struct Heading<'a> {
    pub line: Line<'a>,
}

impl<'a> fmt::Display for Heading<'a> {
    ghost output = { λ h. Some (heading_text (line_piece h.line)) };

    fn fmt<W: fmt::Write>(&self, f: &mut fmt::Formatter<W>) -> fmt::Result {
        let place = self.line.place;
        let len = self.line.part.len();
        let kind = KindName(kind_of(self.line.part));
        let state = state_name(self.line.part);
        write!(f, " {place}+{len} {kind}, {state}")
    }
}
