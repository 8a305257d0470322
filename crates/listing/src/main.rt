// Reads a current date and a text from standard input, decodes the text by the law rule, and prints the records and the faults.
#![tactic(auto)]

mod input;

use crate::input::{date_of, split_line};
use anyhow::anyhow;
use daylight::law_rule::LawRule;
use line::LINE_LENGTH;
use refusals::{Fault, Refusal};
use shef::decode::{Answer, decode};
use sink::listing::Listing;
use slots::list::Slots;
use std::alloc::Global;
use std::io::{Read, Write};

const INPUT_LIMIT: usize = 65_536;

const RECORD_ROOM: usize = 800;

const FAULT_ROOM: usize = 800;

// All of standard input, which may not be longer than the limit.
fn read_input(rt: &HostRuntime) -> anyhow::Result<Vec<u8>> {
    let mut input = Vec::new(rt.alloc());
    let mut source = rt.stdin().take(INPUT_LIMIT as u64 + 1);
    source.read_to_end(&mut input)?;
    if input.len() > INPUT_LIMIT {
        return Err(anyhow!("the input is longer than 65,536 bytes"));
    }
    Ok(input)
}

fn print_faults(rt: &HostRuntime, answer: Answer, faults: &[Fault]) -> anyhow::Result<()> {
    println!(rt; "{}", answer.found)?;
    for fault in faults {
        println!(rt; "{fault}")?;
    }
    Ok(())
}

fn run(rt: &HostRuntime) -> anyhow::Result<()> {
    let input = read_input(rt)?;
    let (line, text) = split_line(&input);
    let mut bytes = vec![in rt.alloc(); 0u8; RECORD_ROOM * LINE_LENGTH]?;
    let mut places = vec![in rt.alloc(); Refusal::NoRoom.at(0); FAULT_ROOM]?;
    let mut log = Listing::new(&mut bytes);
    let mut faults = Slots::new(&mut places);
    let answer = decode(text, date_of(line), &LawRule, &mut log, &mut faults);
    println!(rt; "{}", answer.delivered)?;
    rt.stdout().write_all(log.lines())?;
    print_faults(rt, answer, faults.as_slice())
}

fn main(rt: HostRuntime) -> anyhow::Result<()> {
    run(&rt)
}
