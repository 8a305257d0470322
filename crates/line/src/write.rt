// The listing line of a record.
ghost use Rattle.std.specs.Prelude.{◌≡◌, ◌+◌, ◌/◌, ◌%◌, ◌≤◌, ◌++◌, length};
ghost use Rattle.values.specs.Writing.{digits};
ghost use Rattle.line.specs.Lines.{date_text, second_text, minute_text, or_blank, revision_sign, series_sign};
ghost use Rattle.line.specs.Lines.{line as line_of};
ghost use Rattle.line.specs.Places.{placed};
ghost use Rattle.instants.specs.Moments.{moment, minute_of};
ghost use Rattle.record.specs.Entries.{entry as entry_of, name};
ghost use Rattle.std.specs.Option.{option_map};

use crate::{LINE_LENGTH, starts};
use calendar::date::Date;
use instants::seconds::{HOUR_SECONDS, MINUTE_SECONDS};
use instants::utc_minute::UtcMinute;
use instants::utc_time::UtcTime;
use record::record::Record;
use record::series::Series;
use record::station::Station;
use values::digits::digits;
use values::write::value_text;

fn put_bytes(out: &mut [u8], at: usize, bytes: &[u8])
    requires { at + length bytes.now ≤ length out.old }
    ensures { out.new ≡ placed out.old at bytes.now }
{
    out[at..at + bytes.len()].copy_from_slice(bytes);
}

fn date_text(date: Date) -> [u8; 8]
    ensures { result ≡ date_text date }
{
    let Date { year, month, day } = date;
    let [c, d, y, z] = digits::<4>(u32::from(year));
    let [m, n] = digits::<2>(u32::from(month));
    let [e, f] = digits::<2>(u32::from(day));
    [c, d, y, z, m, n, e, f]
}

// hhnnss
fn clock_text(second: u32) -> [u8; 6]
    ensures { result ≡ digits 2 (second / 3600) ++ (digits 2 (second / 60 % 60) ++ digits 2 (second % 60)) }
{
    let [h, i] = digits::<2>(second / HOUR_SECONDS);
    let [m, n] = digits::<2>(second / MINUTE_SECONDS % 60);
    let [s, t] = digits::<2>(second % MINUTE_SECONDS);
    [h, i, m, n, s, t]
}

fn second_text(time: UtcTime) -> [u8; 14]
    ensures { result ≡ second_text (moment time) }
{
    let mut text = [b' '; 14];
    put_bytes(&mut text, 0, &date_text(time.date));
    put_bytes(&mut text, 8, &clock_text(time.second));
    text
}

fn minute_text(time: UtcMinute) -> [u8; 12]
    ensures { result ≡ minute_text (minute_of time) }
{
    let UtcMinute { date, minute } = time;
    let mut text = [b' '; 12];
    put_bytes(&mut text, 0, &date_text(date));
    put_bytes(&mut text, 8, &digits::<2>(u32::from(minute / 60)));
    put_bytes(&mut text, 10, &digits::<2>(u32::from(minute % 60)));
    text
}

fn created_text(created: Option<UtcMinute>) -> [u8; 12]
    ensures { result ≡ or_blank 12 (option_map minute_text (option_map minute_of created)) }
{
    created.map_or([b' '; 12], minute_text)
}

fn name_text(station: Station) -> [u8; 8]
    ensures { result ≡ name station }
{
    station.text
}

fn source_text(source: Option<Station>) -> [u8; 8]
    ensures { result ≡ or_blank 8 (option_map name source) }
{
    source.map_or([b' '; 8], name_text)
}

fn revision_sign(revised: bool) -> u8
    ensures { result ≡ revision_sign revised }
{
    if revised { b'1' } else { b'0' }
}

fn series_sign(series: Series) -> u8
    ensures { result ≡ series_sign series }
{
    match series {
        Series::Single => b'0',
        Series::First => b'1',
        Series::Later => b'2',
    }
}

// The line of a record.
pub fn line_of(record: &Record) -> [u8; LINE_LENGTH]
    ensures { result ≡ line_of (entry_of «record».now) }
{
    let Record {
        station,
        observed,
        created,
        parameter,
        value,
        qualifier,
        revised,
        series,
        source,
    } = *record;
    let mut out = [b' '; LINE_LENGTH];
    put_bytes(&mut out, starts::STATION, &station.text);
    put_bytes(&mut out, starts::OBSERVED, &second_text(observed));
    put_bytes(&mut out, starts::CREATED, &created_text(created));
    put_bytes(&mut out, starts::CODE, &parameter.code.signs);
    put_bytes(
        &mut out,
        starts::DURATION,
        &digits::<4>(u32::from(parameter.duration)),
    );
    put_bytes(&mut out, starts::VALUE, &value_text(value));
    put_bytes(&mut out, starts::QUALIFIER, &[qualifier.letter]);
    put_bytes(&mut out, starts::REVISED, &[revision_sign(revised)]);
    put_bytes(&mut out, starts::SERIES, &[series_sign(series)]);
    put_bytes(&mut out, starts::SOURCE, &source_text(source));
    out[LINE_LENGTH - 1] = b'\n';
    out
}
