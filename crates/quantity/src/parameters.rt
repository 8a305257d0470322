// Parameters: codes with the duration numbers that go with them.
ghost use Rattle.std.specs.Prelude.{◌≡◌, true, None, MatchOption, slice_index};
ghost use Rattle.std.specs.Option.{option_map};
ghost use Rattle.quantity.specs.Codes.{is_variable, variable_number, goes_with};
ghost use Rattle.quantity.specs.Parameters.{measured, parameter_of, parameter_from};

use crate::code::Code;
use crate::codes::code_from;
use crate::durations::duration_of;
use crate::parameter::Parameter;
use crate::variable::Variable;

// What a code measures; for duration V, with the number of the DV item in force, and none where there is no such item.
pub fn parameter_of(code: Code, variable: Option<Variable>) -> Option<Parameter>
    ensures value { option_map measured result ≡ parameter_of code.signs (option_map (λ v. v.number) variable) }
    ensures refused { MatchOption result ((is_variable (slice_index code.signs 2) ≡ true) × (variable ≡ None)) (λ p. p.code ≡ code) }
{
    let letter = code.signs[2];
    if letter == b'V' {
        let given = variable?;
        Some(Parameter {
            code,
            duration: given.number,
        })
    } else {
        let number = duration_of(letter)?;
        Some(Parameter {
            code,
            duration: number,
        })
    }
}

fn is_variable_number(number: u16) -> bool
    ensures { result ≡ variable_number number }
{
    matches!(number / 100, 0 | 10 | 20 | 30 | 40 | 60)
}

fn goes_with(letter: u8, number: u16) -> bool
    ensures { result ≡ goes_with letter number }
{
    if letter == b'V' {
        is_variable_number(number)
    } else {
        duration_of(letter) == Some(number)
    }
}

// The parameter of a full code and its number.
pub fn parameter_from(signs: [u8; 7], duration: u16) -> Option<Parameter>
    ensures { option_map measured result ≡ parameter_from signs duration }
{
    let code = code_from(signs)?;
    if goes_with(code.signs[2], duration) {
        Some(Parameter { code, duration })
    } else {
        None
    }
}
