// What a value in a message says, or why it says nothing.
use quantity::qualifier::Qualifier;
use quantity::value::Value;

#[derive(Clone, Copy)]
pub struct Quantity {
    pub value: Value,
    pub qualifier: Qualifier,
}

#[derive(Clone, Copy, Debug, PartialEq, Eq)]
pub enum ValueFault {
    // the value breaks its rule
    Malformed,
    // its English amount is 10^12 ten-thousandths or more in size
    TooLarge,
}
