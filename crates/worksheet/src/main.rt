// Prints what codes and values say: the full code with its duration number, then the columns and the qualifier of values, or why they are refused.
#![tactic(auto)]

use quantity::codes::code_of;
use quantity::durations::variable_of;
use quantity::parameters::parameter_of;
use quantity::units::Units;
use quantity::variable::Variable;
use std::io;
use std::io::Stdout;
use values::read::read_value;
use values::write::value_text;

fn show_code(out: Stdout, letters: &[u8], variable: Option<Variable>) -> io::Result<()> {
    let Some(code) = code_of(letters) else {
        return println!(out; "no code");
    };
    let Some(parameter) = parameter_of(code, variable) else {
        return println!(out; "no duration");
    };
    let number = parameter.duration;
    out.write_all(&code.signs)?;
    println!(out; " {number}")
}

fn show_value(out: Stdout, letters: &[u8], units: Units, value: &[u8]) -> io::Result<()> {
    let Some(code) = code_of(letters) else {
        return println!(out; "no code");
    };
    match read_value(value, code, units) {
        Ok(quantity) => {
            let columns = value_text(quantity.value);
            out.write_all(&columns)?;
            out.write_all(&[b' ', quantity.qualifier.letter, b'\n'])
        }
        Err(fault) => println!(out; "{fault}"),
    }
}

fn codes(out: Stdout) -> io::Result<()> {
    show_code(out, b"HG", None)?;
    show_code(out, b"PP", None)?;
    show_code(out, b"PPH", None)?;
    show_code(out, b"TAIRZXZ", None)?;
    show_code(out, b"QRV", variable_of(b'H', 6))?;
    show_code(out, b"QRV", None)?;
    show_code(out, b"HGN", None)?;
    show_code(out, b"AB", None)?;
    show_code(out, b"HGIRZZZZ", None)
}

fn conversions(out: Stdout) -> io::Result<()> {
    show_value(out, b"XV", Units::Si, b"1.2573")?;
    show_value(out, b"XV", Units::Si, b"-1.2573")?;
    show_value(out, b"TA", Units::Si, b"-9999")?;
    show_value(out, b"TA", Units::Si, b"-5572.7778")?;
    show_value(out, b"TA", Units::Si, b"0")?;
    show_value(out, b"TA", Units::Si, b"-17.7778")?;
    show_value(out, b"HG", Units::Si, b"2")?;
    show_value(out, b"HG", Units::Si, b"30479999.9999")?;
    show_value(out, b"HG", Units::Si, b"30480000")?;
    show_value(out, b"PP", Units::Si, b"T")
}

fn forms(out: Stdout) -> io::Result<()> {
    for value in [
        b"99999999.9999".as_slice(),
        b"-99999999.9999",
        b"12.3456E",
        b"-9999.0E",
        b"MM",
        b"-0",
        b"+3",
        b".5",
        b"12.",
        b".",
        b"123456789",
        b"1.23456",
        b"T",
        b"",
    ] {
        show_value(out, b"HG", Units::English, value)?;
    }
    Ok(())
}

fn main(rt: HostRuntime) -> io::Result<()> {
    let out = rt.stdout();
    codes(out)?;
    conversions(out)?;
    forms(out)
}
