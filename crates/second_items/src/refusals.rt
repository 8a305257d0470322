// Why a line, an item or a text was not taken, and where.
ghost use Rattle.std.specs.Prelude.{◌≡◌};
ghost use Rattle.second_items.specs.Refusals.{number_of};
ghost use Rattle.second_items.specs.declared.refusals.Trouble.TheVariants as trouble;

use std::alloc::{AllocError, AllocFailed};

// Each refusal has the number by which users know it.
#[derive(Clone, Copy, Debug, PartialEq, Eq)]
pub enum Refusal {
    CurrentDate = 1,
    Unreadable = 2,
    Continuation = 3,
    Station = 4,
    Date = 5,
    Setting = 6,
    Code = 7,
    NoCodeOrInterval = 8,
    NoDuration = 9,
    Value = 10,
    TooLarge = 11,
    NoTime = 12,
    Unfinished = 13,
    NoRoom = 14,
}

impl Refusal {
    pub fn number(self) -> u8
        ensures { result ≡ number_of self }
    {
        self as u8
    }

    // The fault of this refusal at a place.
    pub fn at(self, place: usize) -> Fault
        ensures { result ≡ record { refusal = self; place = place } }
    {
        Fault {
            refusal: self,
            place,
        }
    }
}

#[derive(Clone, Copy, Debug, PartialEq, Eq)]
pub struct Fault {
    pub refusal: Refusal,
    pub place: usize,
}

// Why a line or an item was not taken: no memory, or a fault.
#[derive(Clone, Copy, Debug, PartialEq, Eq)]
pub enum Trouble {
    Memory,
    Found(Fault),
}

impl From<AllocError> for Trouble {
    ghost from_gives = { λ _ r. r ≡ trouble.Memory };

    fn from(_e: AllocError) -> Trouble {
        Trouble::Memory
    }
}

impl<T: Drop> From<AllocFailed<T>> for Trouble {
    ghost from_gives = { λ _ r. r ≡ trouble.Memory };

    fn from(_e: AllocFailed<T>) -> Trouble {
        Trouble::Memory
    }
}

impl From<Fault> for Trouble {
    ghost from_gives = { λ fault r. r ≡ trouble.Found fault };

    fn from(fault: Fault) -> Trouble {
        Trouble::Found(fault)
    }
}
