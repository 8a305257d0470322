// Decodes texts into a table and into a listing, by a caller's list of change days, and shows that both kinds of sink keep the same
// records, turn away the same one for want of room, and leave alone what lies behind.
#![tactic(auto)]

use calendar::date::Date;
use daylight::list_rule::{Change, ListRule};
use daylight::span::MonthDay;
use line::{line_of, record_of};
use record::record::Record;
use refusals::Refusal;
use shef::decode::decode;
use sink::Sink;
use sink::listing::Listing;
use slots::list::Slots;
use std::io;
use std::io::{Stdout, Write};

// In 2024 daylight time from 7 April on, four weeks later than by the law.
const CHANGES: [Change; 1] = [Change {
    year: 2024,
    first: MonthDay { month: 4, day: 7 },
    last: MonthDay { month: 10, day: 27 },
}];

const TODAY: Date = Date {
    year: 2024,
    month: 3,
    day: 20,
};

const MORNING: &str = ".A KLMO3 0319 M DH08/HG 4.31\n.A PINE5 0319 M DH08/SD 14\n";

const FORECAST: &str = ".E KLMO3 0408 C DH06/HGIF/DIH+6/4.4/4.6\n";

// The record that lies in each slot before a table is kept there.
const BLANK: &str =
    "NOBODY   19000101000000              HGIRZZZ 0000         0.0000 Z 0 0         \n";

// What a sink holds, read back place by place, and one place further.
fn show_held<S: Sink>(out: Stdout, sink: &S) -> io::Result<()> {
    println!(out; "holds {}, room for {}", sink.count(), sink.room())?;
    let mut lines = out;
    for place in 0..=sink.count() {
        match sink.read_back(place) {
            Some(record) => lines.write_all(&line_of(&record))?,
            None => println!(out; "place {place}: none")?,
        }
    }
    Ok(())
}

// Decodes a text into a sink, and shows the answer, the faults and what the sink then holds.
fn keep<S: Sink>(out: Stdout, name: &str, text: &str, sink: &mut S) -> io::Result<()> {
    let rule = ListRule {
        changes: CHANGES.as_slice(),
    };
    let mut places = [Refusal::NoRoom.at(0); 2];
    let mut faults = Slots::new(&mut places);
    let answer = decode(text.as_bytes(), TODAY, &rule, sink, &mut faults);
    let number = answer.ending.number();
    println!(out;
        "{name}: answer {number}, delivered {}, found {}",
        answer.delivered, answer.found
    )?;
    for fault in faults.as_slice() {
        println!(out; "{fault}")?;
    }
    show_held(out, sink)
}

fn keep_table(out: Stdout, blank: Record) -> io::Result<()> {
    let mut slots = [blank; 3];
    let mut table = Slots::new(&mut slots);
    keep(out, "table", MORNING, &mut table)?;
    let (_, held) = table.into_parts();
    println!(out; "given back: {held} held")?;
    let mut lines = out;
    for record in &slots {
        lines.write_all(&line_of(record))?;
    }
    let mut table = Slots::new(&mut slots);
    keep(out, "table", MORNING, &mut table)?;
    keep(out, "table", FORECAST, &mut table)
}

fn keep_listing(out: Stdout) -> io::Result<()> {
    let mut bytes = [b'~'; 250];
    let mut listing = Listing::new(&mut bytes);
    keep(out, "listing", MORNING, &mut listing)?;
    keep(out, "listing", FORECAST, &mut listing)?;
    let behind = bytes.iter().filter(|b| **b == b'~').count();
    println!(out; "given back: {behind} bytes behind the lines as they were")
}

fn main(rt: HostRuntime) -> io::Result<()> {
    let out = rt.stdout();
    let Some(blank) = record_of(BLANK.as_bytes()) else {
        return println!(out; "no line of a record");
    };
    keep_table(out, blank)?;
    keep_listing(out)
}
