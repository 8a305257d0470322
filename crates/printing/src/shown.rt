// Bytes of a text as they are printed, by themselves and with their place.
ghost use Rattle.std.specs.Prelude.{Some};
ghost use Rattle.printing.specs.Texts.{piece_text, shown, sign_text};

use std::fmt;
use std::fmt::Write;

const LONGEST: usize = 80;

#[derive(Clone, Copy)]
struct Sign(u8);

// A byte that does not print has a name.
impl fmt::Display for Sign {
    ghost output = { λ s. Some (sign_text s.0) };

    fn fmt<W: fmt::Write>(&self, f: &mut fmt::Formatter<W>) -> fmt::Result {
        match self.0 {
            b'\n' => f.write_str("\\n"),
            b'\r' => f.write_str("\\r"),
            b @ 32..=126 => f.write_char(char::from(b)),
            b => write!(f, "\\{b}"),
        }
    }
}

#[derive(Clone, Copy)]
pub struct Shown<'a> {
    pub bytes: &'a [u8],
}

// More bytes than fit on a line of print are only counted.
impl<'a> fmt::Display for Shown<'a> {
    ghost output = { λ s. Some (shown s.bytes.now) };

    fn fmt<W: fmt::Write>(&self, f: &mut fmt::Formatter<W>) -> fmt::Result {
        let len = self.bytes.len();
        if len > LONGEST {
            return write!(f, "{len} bytes");
        }
        for b in self.bytes {
            let sign = Sign(*b);
            write!(f, "{sign}")?;
        }
        Ok(())
    }
}

// A piece of a line, with its place in the text.
#[derive(Clone, Copy)]
pub struct Placed<'a> {
    pub place: usize,
    pub bytes: &'a [u8],
}

impl<'a> fmt::Display for Placed<'a> {
    ghost output = { λ p. Some (piece_text (p.place, p.bytes.now)) };

    fn fmt<W: fmt::Write>(&self, f: &mut fmt::Formatter<W>) -> fmt::Result {
        let place = self.place;
        let shown = Shown { bytes: self.bytes };
        write!(f, " {place}<{shown}>")
    }
}
