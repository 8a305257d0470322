// Parameter codes.
ghost use Rattle.std.specs.Prelude.{◌≡◌, Some};
ghost use Rattle.second_value.specs.Codes.{code_text, signs_of};

use crate::elements;
use crate::elements::Element;
use std::fmt;
use std::fmt::Write;

// A full code. Its duration letter is V where the number comes from the message.
#[derive(Clone, Copy)]
pub struct Code {
    pub element: Element,
    pub duration: u8,
    pub kind: u8,
    pub source: u8,
    pub extremum: u8,
    pub probability: u8,
}

pub fn read_code(text: &[u8]) -> Option<Code> {
    if text.len() < 2 || text.len() > 7 {
        return None;
    }
    // Signs that are not given are Z.
    let mut signs = [b'Z'; 7];
    signs[..text.len()].copy_from_slice(text);
    let [first, second, letter, given, source, extremum, probability] = signs;
    let element = elements::element_named([first, second])?;
    let duration = if letter == b'Z' { element.own } else { letter };
    if duration != b'V' && elements::duration(duration).is_none() {
        return None;
    }
    let free = [source, extremum, probability];
    let fit = given.is_ascii_uppercase()
        && free
            .iter()
            .all(|b| b.is_ascii_uppercase() || b.is_ascii_digit());
    if !fit {
        return None;
    }
    Some(Code {
        element,
        duration,
        kind: if given == b'Z' { b'R' } else { given },
        source,
        extremum,
        probability,
    })
}

impl Code {
    fn signs(self) -> [u8; 7]
        ensures { result ≡ signs_of self }
    {
        let [first, second] = self.element.letters;
        [
            first,
            second,
            self.duration,
            self.kind,
            self.source,
            self.extremum,
            self.probability,
        ]
    }
}

impl fmt::Display for Code {
    ghost output = { λ c. Some (code_text c) };

    fn fmt<W: fmt::Write>(&self, f: &mut fmt::Formatter<W>) -> fmt::Result {
        for b in self.signs() {
            f.write_char(char::from(b))?;
        }
        Ok(())
    }
}
