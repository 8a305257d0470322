// Why something was not read, and where: one enum over all refusals, by the layer that refuses.
#![tactic(auto)]

ghost use Rattle.std.specs.Prelude.{◌≡◌, Some};
ghost use Rattle.refusals.specs.Faults.{fault_text, refusal_of};
ghost use Rattle.refusals.specs.Numbers.{number_of, layer_of};
ghost use Rattle.refusals.specs.declared.Refusal.TheVariants as refusal;

use std::fmt;
use values::reading::ValueFault;

// A line of a message, or one of its fields.
#[derive(Clone, Copy, PartialEq, Eq)]
pub enum MessageRefusal {
    // A line is too long or has a byte outside 32 to 126.
    Unreadable,
    // A continuation has nothing to continue or breaks its rule.
    Continuation,
    // A station or source is missing or malformed.
    Station,
    // A date is missing, malformed or on no day.
    Date,
    // A .B message is not finished.
    Unfinished,
}

// An item of a message.
#[derive(Clone, Copy, PartialEq, Eq)]
pub enum ItemRefusal {
    // A D item breaks its rule.
    DItem,
    // A code breaks its rule.
    Code,
    // A value has no code left for it, or as a step no interval.
    NoCodeOrInterval,
    // A value's code has duration V and no DV is in force.
    NoDuration,
    // A value is absent or breaks its rule.
    Value,
    // A converted value is too large.
    TooLarge,
    // The observation time is no time, or outside 1900 to 2099 in UTC.
    NoTime,
}

#[derive(Clone, Copy, PartialEq, Eq)]
pub enum Refusal {
    // The current date is no day of 1900 to 2099.
    CurrentDate,
    // A line of a message, or one of its fields, breaks its rule.
    Message(MessageRefusal),
    // An item of a message cannot be read.
    Item(ItemRefusal),
    // The sink has no room.
    NoRoom,
}

#[derive(Clone, Copy, PartialEq, Eq)]
pub enum Layer {
    Call,
    Message,
    Item,
    Sink,
}

// A refusal and its place in the text, counted in bytes from 0.
#[derive(Clone, Copy, PartialEq, Eq)]
pub struct Fault {
    pub refusal: Refusal,
    pub place: usize,
}

// A value that breaks its rule and one that is too large are refused by numbers of their own.
impl From<ValueFault> for ItemRefusal {
    ghost from_gives = { λ fault r. r ≡ refusal_of fault };

    fn from(fault: ValueFault) -> ItemRefusal {
        match fault {
            ValueFault::Malformed => ItemRefusal::Value,
            ValueFault::TooLarge => ItemRefusal::TooLarge,
        }
    }
}

impl From<MessageRefusal> for Refusal {
    ghost from_gives = { λ of_message r. r ≡ refusal.Message of_message };

    fn from(of_message: MessageRefusal) -> Refusal {
        Refusal::Message(of_message)
    }
}

impl From<ItemRefusal> for Refusal {
    ghost from_gives = { λ of_item r. r ≡ refusal.Item of_item };

    fn from(of_item: ItemRefusal) -> Refusal {
        Refusal::Item(of_item)
    }
}

// `at` stands at each layer, since a trait's method would have to be imported wherever a line or an item is refused.
impl MessageRefusal {
    // The fault of this refusal at a place.
    pub fn at(self, place: usize) -> Fault
        ensures { result ≡ record { refusal = Refusal.Message self; place = place } }
    {
        Refusal::from(self).at(place)
    }
}

impl ItemRefusal {
    // The fault of this refusal at a place.
    pub fn at(self, place: usize) -> Fault
        ensures { result ≡ record { refusal = Refusal.Item self; place = place } }
    {
        Refusal::from(self).at(place)
    }
}

impl Refusal {
    // The fault of this refusal at a place.
    pub fn at(self, place: usize) -> Fault
        ensures { result ≡ record { refusal = self; place = place } }
    {
        Fault {
            refusal: self,
            place,
        }
    }

    // The number by which users know it.
    pub fn number(self) -> u8
        ensures { result ≡ number_of self }
    {
        match self {
            Refusal::CurrentDate => 1,
            Refusal::Message(MessageRefusal::Unreadable) => 2,
            Refusal::Message(MessageRefusal::Continuation) => 3,
            Refusal::Message(MessageRefusal::Station) => 4,
            Refusal::Message(MessageRefusal::Date) => 5,
            Refusal::Item(ItemRefusal::DItem) => 6,
            Refusal::Item(ItemRefusal::Code) => 7,
            Refusal::Item(ItemRefusal::NoCodeOrInterval) => 8,
            Refusal::Item(ItemRefusal::NoDuration) => 9,
            Refusal::Item(ItemRefusal::Value) => 10,
            Refusal::Item(ItemRefusal::TooLarge) => 11,
            Refusal::Item(ItemRefusal::NoTime) => 12,
            Refusal::Message(MessageRefusal::Unfinished) => 13,
            Refusal::NoRoom => 14,
        }
    }

    pub fn layer(self) -> Layer
        ensures { result ≡ layer_of self }
    {
        match self {
            Refusal::CurrentDate => Layer::Call,
            Refusal::Message(_) => Layer::Message,
            Refusal::Item(_) => Layer::Item,
            Refusal::NoRoom => Layer::Sink,
        }
    }
}

// The number and the place, as users read them.
impl fmt::Display for Fault {
    ghost output = { λ fault. Some (fault_text fault) };

    fn fmt<W: fmt::Write>(&self, f: &mut fmt::Formatter<W>) -> fmt::Result {
        let number = self.refusal.number();
        let place = self.place;
        write!(f, "{number} {place}")
    }
}
