// The lines of a text as they are printed, with their words and items.
ghost use Rattle.std.specs.Prelude.{◌+◌, ◌^◌, ◌<◌, ◌≤◌, length};

use items::{Items, next_word, split_item};
use printing::{Heading, Placed, Shown};
use reader::{Line, LineKind, Lines, continuation_of, kind_of, letters_len};
use std::io;

pub fn show_piece(rt: &HostRuntime, place: usize, bytes: &[u8]) -> io::Result<()> {
    let piece = Placed { place, bytes };
    print!(rt; "{piece}")
}

fn show_words(rt: &HostRuntime, line: &[u8]) -> io::Result<()> {
    print!(rt; "  words")?;
    let mut rest = line;
    let mut start = 0;
    while let Some(word) = next_word(rest) {
        start += word.lead;
        show_piece(rt, start, word.part)?;
        start += word.part.len();
        rest = word.rest;
    }
    println!(rt; "")
}

fn show_items(rt: &HostRuntime, items: Items) -> io::Result<()> {
    print!(rt; "  items")?;
    for item in items {
        show_piece(rt, item.place, item.part)?;
    }
    println!(rt; "")
}

// The codes and values of a message's items. It stays beside show_items: a closure for what differs is longer than the loop.
fn show_codes(rt: &HostRuntime, items: Items) -> io::Result<()> {
    print!(rt; "  codes")?;
    for item in items {
        let (code, value) = split_item(item.part);
        let code = Shown { bytes: code };
        let value = Shown { bytes: value };
        print!(rt; " <{code}|{value}>")?;
    }
    println!(rt; "")
}

// The items behind the first bytes of a message line.
fn show_message(rt: &HostRuntime, line: Line, start: usize) -> io::Result<()>
    requires { (start ≤ length line.part.now) × (line.place + length line.part.now < 2 ^ 64) }
{
    let (_, behind) = line.part.split_at(start);
    let items = Items::of_line(behind, line.place + start);
    show_items(rt, items)?;
    show_codes(rt, items)
}

// The items behind the station of a body line.
fn show_body(rt: &HostRuntime, line: Line) -> io::Result<()>
    requires { line.place + length line.part.now < 2 ^ 64 }
{
    match next_word(line.part) {
        Some(station) => {
            let start = station.lead + station.part.len();
            show_items(rt, Items::of_body(station.rest, line.place + start))
        }
        None => Ok(()),
    }
}

fn show_line(rt: &HostRuntime, line: Line) -> io::Result<()>
    requires { line.place + length line.part.now < 2 ^ 64 }
{
    let heading = Heading { line };
    println!(rt; "{heading}")?;
    show_words(rt, line.part)?;
    match kind_of(line.part) {
        LineKind::Opening(_, _) => show_message(rt, line, letters_len(line.part)),
        LineKind::Continuation(_, _) => match continuation_of(line.part) {
            Some(found) => {
                let (number, start) = (found.number, found.start);
                println!(rt; "  number {number} up to {start}")?;
                show_message(rt, line, start)
            }
            None => println!(rt; "  no number"),
        },
        LineKind::Other => show_body(rt, line),
        LineKind::End | LineKind::Dotted => Ok(()),
    }
}

pub fn show_lines(rt: &HostRuntime, text: &[u8]) -> io::Result<()> {
    for line in Lines::new(text) {
        show_line(rt, line)?;
    }
    Ok(())
}
