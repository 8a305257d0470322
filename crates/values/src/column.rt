// Values read back from the fourteen columns that show them.
ghost use Rattle.std.specs.Prelude.{◌≡◌, MatchOption, ◌≢◌};
ghost use Rattle.quantity.specs.declared.value.Value.{Value};
ghost use Rattle.quantity.specs.Values.{value_of};
ghost use Rattle.values.specs.Writing.{trim_start, written};

use crate::number::value_sent;
use crate::write::value_text;
use quantity::value::Value;

fn trim_start(text: &[u8]) -> &[u8]
    ensures { result.now ≡ trim_start text.now }
{
    let mut rest = text;
    while let [b' ', behind @ ..] = rest {
        rest = behind;
    }
    rest
}

// The value whose columns these are; none where no value is written so.
pub fn parse_value(column: &[u8]) -> Option<Value>
    ensures { MatchOption result ((v : Value) → column.now ≢ written (value_of v)) (λ v. column.now ≡ written (value_of v)) }
{
    let value = value_sent(trim_start(column))?;
    if column == value_text(value).as_slice() {
        Some(value)
    } else {
        None
    }
}
