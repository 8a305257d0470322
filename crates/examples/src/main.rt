// Worked examples of the rules: proved of the definitions, and worked by the code, one line to each date, time and value.
#![tactic(auto)]

use crate::worked::{in_utc, step_of, worked_examples};
use calendar::date::Date;
use calendar::message::message_date;
use instants::seconds::{HOUR_SECONDS, MINUTE_SECONDS};
use instants::utc_time::UtcTime;
use quantity::codes::code_of;
use quantity::units::Units;
use quantity::value::Value;
use std::io;
use std::io::Stdout;
use values::read::read_value;

mod worked;

fn date_line(out: Stdout, example: &str, found: Option<Date>) -> io::Result<()> {
    match found {
        Some(date) => println!(out; "{example}: {date}"),
        None => println!(out; "{example}: none"),
    }
}

fn time_line(out: Stdout, example: &str, found: Option<UtcTime>) -> io::Result<()> {
    let Some(time) = found else {
        return println!(out; "{example}: none");
    };
    let date = time.date;
    let hour = time.second / HOUR_SECONDS;
    let minute = time.second / MINUTE_SECONDS % 60;
    println!(out; "{example}: {date} {hour:02}:{minute:02}")
}

// A value under SI, in ten-thousandths of the English unit.
fn value_line(out: Stdout, letters: &str, value: &str) -> io::Result<()> {
    let Some(code) = code_of(letters.as_bytes()) else {
        return println!(out; "{letters}: no code");
    };
    match read_value(value.as_bytes(), code, Units::Si) {
        Ok(quantity) => match quantity.value {
            Value::Missing => println!(out; "{letters} {value}: missing"),
            Value::Known(amount) => {
                let size = amount.tenthousandths;
                println!(out; "{letters} {value}: {size}")
            }
        },
        Err(_) => println!(out; "{letters} {value}: refused"),
    }
}

fn dates(out: Stdout) -> io::Result<()> {
    let march = Date {
        year: 2024,
        month: 3,
        day: 20,
    };
    date_line(out, "0919 on 2024-03-20", message_date(b"0919", march))?;
    date_line(out, "0918 on 2024-03-20", message_date(b"0918", march))?;
    let june = Date {
        year: 2022,
        month: 6,
        day: 1,
    };
    date_line(out, "0229 on 2022-06-01", message_date(b"0229", june))?;
    let june = Date {
        year: 2023,
        month: 6,
        day: 1,
    };
    date_line(out, "0229 on 2023-06-01", message_date(b"0229", june))
}

fn times(out: Stdout) -> io::Result<()> {
    let change = Date {
        year: 2024,
        month: 3,
        day: 10,
    };
    time_line(out, "2024-03-10 01:59 C", in_utc(b"C", (change, 7140)))?;
    time_line(out, "2024-03-10 02:00 C", in_utc(b"C", (change, 7200)))?;
    let start = Date {
        year: 2024,
        month: 1,
        day: 31,
    };
    time_line(out, "step 0 of DIM+1", step_of(start, b"Z", b"DIM+1", 0))?;
    time_line(out, "step 1 of DIM+1", step_of(start, b"Z", b"DIM+1", 1))?;
    time_line(out, "step 2 of DIM+1", step_of(start, b"Z", b"DIM+1", 2))
}

fn main(rt: HostRuntime) -> io::Result<()> {
    worked_examples();
    let out = rt.stdout();
    dates(out)?;
    times(out)?;
    value_line(out, "XV", "1.2573")?;
    value_line(out, "XV", "-1.2573")?;
    value_line(out, "TA", "-9999")?;
    value_line(out, "TA", "-5572.7778")
}
