// Values as messages write them: an amount and perhaps a qualifier, a missing value, or a trace.
ghost use Rattle.std.specs.Prelude.{◌≡◌};
ghost use Rattle.quantity.specs.Values.{stands_for, value_of};
ghost use Rattle.values.specs.Reading.{qualifier_of, number_of, knows_trace, value_in, valued, outcome, trace_read, amount_read, read_for, read_value};
ghost use Rattle.values.specs.Numbers.{amount_of};

use crate::convert::convert;
use crate::number::value_sent;
use crate::reading::{Quantity, ValueFault};
use quantity::amount::Amount;
use quantity::code::Code;
use quantity::element::Element;
use quantity::make::value_from;
use quantity::qualifier::Qualifier;
use quantity::units::Units;
use quantity::value::Value;
use text::is_capital;

// The number of a value and the qualifier behind it, where one stands there.
fn parted(value: &[u8]) -> (&[u8], Qualifier)
    ensures number { result.0.now ≡ number_of value.now }
    ensures qualifier { result.1.letter ≡ qualifier_of value.now }
{
    match value {
        [number @ .., last] if is_capital(*last) => (number, Qualifier { letter: *last }),
        _ => (value, Qualifier::NONE),
    }
}

fn knows_trace(first: u8, second: u8) -> bool
    ensures { result ≡ knows_trace first second }
{
    matches!(
        (first, second),
        (b'P', b'P' | b'C') | (b'S', b'W' | b'D' | b'F')
    )
}

// A trace is 0.0010 in either unit, for the elements that know one.
fn read_trace(element: Element) -> Result<Quantity, ValueFault>
    ensures { outcome result ≡ trace_read element }
{
    if knows_trace(element.first, element.second) {
        Ok(Quantity {
            value: Value::Known(Amount { tenthousandths: 10 }),
            qualifier: Qualifier::NONE,
        })
    } else {
        Err(ValueFault::Malformed)
    }
}

// The value that an amount says; -9999 is missing before conversion and after it.
fn value_in(element: Element, units: Units, sent: Value) -> Result<Value, ValueFault>
    ensures { valued result ≡ value_in element units (stands_for (value_of sent)) }
{
    match (units, sent) {
        (Units::Si, Value::Known(amount)) => {
            value_from(convert(element, amount)).ok_or(ValueFault::TooLarge)
        }
        _ => Ok(sent),
    }
}

fn read_amount(value: &[u8], element: Element, units: Units) -> Result<Quantity, ValueFault>
    ensures { outcome result ≡ amount_read element units (qualifier_of value.now) (amount_of (number_of value.now)) }
{
    let (number, qualifier) = parted(value);
    let sent = value_sent(number).ok_or(ValueFault::Malformed)?;
    let value = value_in(element, units, sent)?;
    Ok(Quantity { value, qualifier })
}

#[tactic(auto, unfolding(crate::specs::Reading::read_for))]
fn read_for(value: &[u8], element: Element, units: Units) -> Result<Quantity, ValueFault>
    ensures { outcome result ≡ read_for element units value.now }
{
    match value {
        b"M" | b"MM" => Ok(Quantity {
            value: Value::Missing,
            qualifier: Qualifier::NONE,
        }),
        b"T" => read_trace(element),
        _ => read_amount(value, element, units),
    }
}

// What a value that stands for a code says, in the units of its message.
pub fn read_value(value: &[u8], code: Code, units: Units) -> Result<Quantity, ValueFault>
    ensures { outcome result ≡ read_value code.signs units value.now }
{
    read_for(value, code.element(), units)
}
