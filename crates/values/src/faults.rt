// How a value's fault is told.
ghost use Rattle.std.specs.Prelude.{Some};
ghost use Rattle.values.specs.Faults.{told};

use crate::reading::ValueFault;
use std::error::Error;
use std::fmt;

impl fmt::Display for ValueFault {
    ghost output = { λ fault. Some (told fault) };

    fn fmt<W: fmt::Write>(&self, f: &mut fmt::Formatter<W>) -> fmt::Result {
        f.write_str(match self {
            ValueFault::Malformed => "malformed",
            ValueFault::TooLarge => "too large",
        })
    }
}

impl Error for ValueFault {}
