// Prints awkward lines with their kinds, continuation numbers, words and items, and merged body lines.
#![tactic(auto)]

mod show;

use crate::show::{show_lines, show_piece};
use items::Items;
use line_samples::{BODIES, LONG, SAMPLES};
use merging::{Header, Merged, Part};
use printing::Shown;
use reader::Lines;
use std::io;

fn show_text(rt: &HostRuntime, text: &[u8]) -> io::Result<()> {
    let shown = Shown { bytes: text };
    println!(rt; "<{shown}>")?;
    show_lines(rt, text)
}

// A continuation of so many bytes, and what stands behind it.
fn show_long(rt: &HostRuntime, len: usize, end: &[u8]) -> io::Result<()> {
    let mut text = vec![in rt.alloc(); b'x'; len]?;
    for (at, b) in text.iter_mut().zip(b".A1 ") {
        *at = *b;
    }
    text.extend_from_slice(end)?;
    let shown = Shown { bytes: end };
    println!(rt; "{len} bytes and <{shown}>")?;
    show_lines(rt, &text)
}

fn show_part(rt: &HostRuntime, part: Part) -> io::Result<()> {
    let (side, item) = match part {
        Part::Header(item) => ("header", item),
        Part::Line(item) => ("line", item),
    };
    print!(rt; " {side}")?;
    show_piece(rt, item.place, item.part)?;
    println!(rt; "")
}

// A body line merged with its header, whose lines begin at 0; the line begins at 200.
fn show_merged<'a>(rt: &HostRuntime, header: &'a [u8], line: &'a [u8]) -> io::Result<()> {
    let header_shown = Shown { bytes: header };
    let line_shown = Shown { bytes: line };
    println!(rt; "<{header_shown}> with <{line_shown}>")?;
    let mut lines = Lines::new(header);
    let opening = match lines.next_line() {
        Some(first) => Items::of_line(first.part, first.place),
        None => Items::of_line(header, 0),
    };
    for part in Merged::new(Header::new(opening, lines, 9), Items::of_body(line, 200)) {
        show_part(rt, part)?;
    }
    Ok(())
}

fn show_samples(rt: &HostRuntime) -> io::Result<()> {
    for sample in &SAMPLES {
        show_text(rt, sample)?;
    }
    Ok(())
}

fn show_longs(rt: &HostRuntime) -> io::Result<()> {
    for (len, end) in &LONG {
        show_long(rt, *len, end)?;
    }
    Ok(())
}

fn show_bodies(rt: &HostRuntime) -> io::Result<()> {
    for (header, line) in &BODIES {
        show_merged(rt, header, line)?;
    }
    Ok(())
}

fn main(rt: HostRuntime) -> io::Result<()> {
    show_samples(&rt)?;
    show_longs(&rt)?;
    show_bodies(&rt)
}
