// Fields from their columns. What is not the text of a field may give any field here: a line is read strictly by writing it again.
// Columns are slices of a known length and no arrays, since cutting an array out of a line could fail, and cutting a slice cannot.
ghost use Rattle.std.specs.Prelude.{◌≡◌, ℕ, ◌+◌, ◌<◌, ◌≤◌, true, List, [], ◌∷◌, ◌++◌, length, IfSome, if◌then◌else◌, Some, None, Option};
ghost use Rattle.values.specs.Writing.{digits};
ghost use Rattle.instants.specs.Utc.{utc_minute, utc_time};
ghost use Rattle.calendar.specs.declared.date.Date.{Date};
ghost use Rattle.line.specs.Lines.{Writable, date_text, minute_text, or_blank, second_text, series_sign};
ghost use Rattle.quantity.specs.Codes.{duration_fits, full_code};
ghost use Rattle.quantity.specs.Parameters.{measured};
ghost use Rattle.instants.specs.Moments.{minute_of, moment};
ghost use Rattle.record.specs.Entries.{name};
ghost use Rattle.record.specs.Stations.{station_text};
ghost use Rattle.record.specs.declared.series.Series.{Series};
ghost use Rattle.std.specs.Option.{option_map};

use calendar::date::Date;
use instants::seconds::{HOUR_SECONDS, MINUTE_SECONDS};
use instants::utc_minute::UtcMinute;
use instants::utc_time::UtcTime;
use quantity::parameter::Parameter;
use quantity::parameters::parameter_from;
use record::series::Series;
use record::station::Station;
use text::two_digits;

// The number that two digits write.
fn pair(a: u8, b: u8) -> u8
    ensures says { (n : ℕ) → n < 100 → digits 2 n ≡ a ∷ b ∷ [] → result ≡ n }
    ensures small { result < 100 }
{
    two_digits(a, b).unwrap_or(0)
}

// The number that four digits write.
fn number_in(column: &[u8]) -> u16
    requires { 4 ≤ length column.now }
    ensures says { (n : ℕ) (rest : List ℕ) → n < 10000 → digits 4 n ++ rest ≡ column.now → result ≡ n }
    ensures small { result < 10000 }
{
    u16::from(pair(column[0], column[1])) * 100 + u16::from(pair(column[2], column[3]))
}

// The date at the column's start.
fn date_in(column: &[u8]) -> Date
    requires { 8 ≤ length column.now }
    ensures { (d : Date) (rest : List ℕ) → Writable d → date_text d ++ rest ≡ column.now → result ≡ d }
{
    Date {
        year: number_in(column),
        month: pair(column[4], column[5]),
        day: pair(column[6], column[7]),
    }
}

// The observation time in fourteen columns.
pub(crate) fn second_in(column: &[u8]) -> Option<UtcTime>
    requires { length column.now ≡ 14 }
    ensures { (t : Date × ℕ) → utc_time t.0 t.1 ≡ true → second_text t ≡ column.now → option_map moment result ≡ Some t }
{
    let date = date_in(column);
    let hour = u32::from(pair(column[8], column[9]));
    let minute = u32::from(pair(column[10], column[11]));
    let second = u32::from(pair(column[12], column[13]));
    UtcTime::new(date, hour * HOUR_SECONDS + minute * MINUTE_SECONDS + second)
}

// The creation time in twelve columns, none where they are blank.
pub(crate) fn minute_in(column: &[u8]) -> Option<UtcMinute>
    requires { length column.now ≡ 12 }
    ensures { (t : Option (Date × ℕ)) → IfSome t (λ m. utc_minute m.0 m.1 ≡ true) → or_blank 12 (option_map minute_text t) ≡ column.now → option_map minute_of result ≡ t }
{
    if column[0] == b' ' {
        return None;
    }
    let date = date_in(column);
    let hour = u16::from(pair(column[8], column[9]));
    let minute = u16::from(pair(column[10], column[11]));
    UtcMinute::new(date, hour * 60 + minute)
}

// The name in eight columns, none where they are blank.
pub(crate) fn name_in(column: &[u8]) -> Option<Station>
    requires { length column.now ≡ 8 }
    ensures { option_map name result ≡ (if station_text column.now then Some column.now else None) }
{
    let mut text = [b' '; 8];
    text.copy_from_slice(column);
    Station::from_columns(text)
}

// The parameter of seven signs and of four digits.
pub(crate) fn parameter_in(code: &[u8], number: &[u8]) -> Option<Parameter>
    requires { (length code.now ≡ 7) × (length number.now ≡ 4) }
    ensures { (n : ℕ) → full_code code.now ≡ true → duration_fits code.now n ≡ true → digits 4 n ≡ number.now → option_map measured result ≡ Some (code.now, n) }
{
    let mut signs = [b' '; 7];
    signs.copy_from_slice(code);
    parameter_from(signs, number_in(number))
}

pub(crate) fn series_in(sign: u8) -> Series
    ensures { (s : Series) → series_sign s ≡ sign → result ≡ s }
{
    match sign {
        b'1' => Series::First,
        b'2' => Series::Later,
        _ => Series::Single,
    }
}
