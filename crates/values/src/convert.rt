// SI amounts in English units.
ghost use Rattle.std.specs.Prelude.{◌≡◌, ◌+◌, ◌*◌, ◌^◌, ◌<◌};
ghost use Rattle.values.specs.Conversion.{nearest as nearest_to, converted};

use quantity::amount::Amount;
use quantity::element::Element;

fn nearest(element: Element, size: u64) -> u64
    requires { size < 3 * 10 ^ 18 }
    ensures value { result ≡ nearest_to element.denominator size }
    ensures small { result < 2 ^ 63 }
{
    let denominator = element.denominator;
    (2 * size + denominator) / (2 * denominator)
}

// The sign is put aside, so that halves go away from zero on both sides.
pub(crate) fn convert(element: Element, amount: Amount) -> i64
    ensures { result ≡ converted element amount.tenthousandths }
{
    let tenthousandths = amount.tenthousandths;
    let scaled = element.numerator * tenthousandths.unsigned_abs();
    let shift = element.offset * element.denominator;
    if tenthousandths >= 0 {
        nearest(element, scaled + shift) as i64
    } else if scaled <= shift {
        nearest(element, shift - scaled) as i64
    } else {
        -(nearest(element, scaled - shift) as i64)
    }
}
