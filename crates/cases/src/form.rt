// The form in which cases are written down. A case begins with a line
//
//     === DATE ROOM NAME
//
// and has the lines of its text behind it, each of which ends with a line feed. After a line `---`
// the outcome is told: the records, each with its fields in a row, then the faults, then the answer
// where it is not 0. In a text `{HH}` is the byte with that number in hexadecimal digits, `{HH*N}` is
// N such bytes, and `{.}` takes away the line feed of its line. Lines before the first case of a list
// say what it is about.
ghost use Rattle.std.specs.Prelude.{◌≡◌, ◌+◌, vec_len, is_some, IfOk, MatchOption, OnErr};
ghost use Rattle.cases.specs.Lists.{begins_case, cases_ahead, count_of_cases};

use std::alloc::{AllocError, Global};
use std::str::Lines;

#[derive(Drop)]
pub struct Case {
    pub name: String,
    // Three numbers and no date, since this crate leans on neither decoder.
    pub year: u16,
    pub month: u8,
    pub day: u8,
    pub room: usize,
    pub text: Vec<u8>,
    // The lines of the outcome, where it is told.
    pub outcome: Option<Vec<String>>,
}

// What the first line of a case says, where this line begins one.
fn head_of(line: &str) -> Option<&str>
    ensures { is_some result ≡ begins_case line.now }
{
    line.strip_prefix("=== ")
}

// The cases of a list, read one after the other: the head of the next one, and the lines behind it.
#[derive(Drop)]
pub struct Cases<'a> {
    head: Option<&'a str>,
    lines: Lines<'a>,
}

impl<'a> Cases<'a> {
    // Passes over the lines before the first case.
    pub fn new(list: &'a str) -> Cases<'a>
        ensures { cases_ahead result ≡ count_of_cases list.now }
    {
        let mut lines = list.lines();
        while let Some(line) = lines.next() {
            let head = head_of(line);
            if head.is_some() {
                return Cases { head, lines };
            }
        }
        Cases { head: None, lines }
    }

    // The next case, and none at the list's end. No case comes behind one for which memory ran out.
    pub fn next_case(&mut self, heap: Global) -> Result<Option<Case>, AllocError>
        ensures given { IfOk result (λ found. MatchOption found ((cases_ahead self.old ≡ 0) × (cases_ahead self.new ≡ 0)) (λ _. cases_ahead self.old ≡ cases_ahead self.new + 1)) }
        ensures ended { OnErr result (cases_ahead self.new ≡ 0) }
    {
        let Some(head) = self.head.take() else {
            return Ok(None);
        };
        let mut case = begun(heap, head)?;
        while let Some(line) = self.lines.next() {
            self.head = head_of(line);
            if self.head.is_some() {
                return Ok(Some(case));
            }
            case.put_line(heap, line)?;
        }
        Ok(Some(case))
    }
}

// The cases of a list, in their order.
pub fn read_list(heap: Global, list: &str) -> Result<Vec<Case>, AllocError>
    ensures { IfOk result (λ cases. vec_len cases ≡ count_of_cases list.now) }
{
    let mut cases = Vec::new(heap);
    let mut ahead = Cases::new(list);
    while let Some(case) = ahead.next_case(heap)? {
        cases.push(case)?;
    }
    Ok(cases)
}

// The case with what its first line says.
fn begun(heap: Global, head: &str) -> Result<Case, AllocError> {
    let (date, behind) = head.split_once(' ').unwrap_or((head, ""));
    let (room, name) = behind.split_once(' ').unwrap_or((behind, ""));
    let date = date.parse::<u32>().unwrap_or(0);
    Ok(Case {
        name: String::from_str(heap, name)?,
        year: (date / 10_000 % 10_000) as u16,
        month: (date / 100 % 100) as u8,
        day: (date % 100) as u8,
        room: room.parse::<usize>().unwrap_or(0),
        text: Vec::new(heap),
        outcome: None,
    })
}

impl Case {
    fn put_line(&mut self, heap: Global, line: &str) -> Result<(), AllocError> {
        if let Some(outcome) = &mut self.outcome {
            outcome.push(String::from_str(heap, line)?)?;
        } else if line == "---" {
            self.outcome = Some(Vec::new(heap));
        } else {
            put_text(&mut self.text, line)?;
        }
        Ok(())
    }
}

// A line of a text, with what stands in braces written out.
fn put_text(text: &mut Vec<u8>, line: &str) -> Result<(), AllocError> {
    let mut pieces = line.split('{');
    text.extend_from_slice(pieces.next().unwrap_or("").as_bytes())?;
    let mut ended = true;
    for piece in pieces {
        let (braced, behind) = piece.split_once('}').unwrap_or((piece, ""));
        if braced == "." {
            ended = false;
        } else {
            put_bytes(text, braced)?;
        }
        text.extend_from_slice(behind.as_bytes())?;
    }
    if ended {
        text.push(b'\n')?;
    }
    Ok(())
}

// One byte by its number, or so many of it.
fn put_bytes(text: &mut Vec<u8>, braced: &str) -> Result<(), AllocError> {
    let (digits, count) = braced.split_once('*').unwrap_or((braced, "1"));
    let byte = u8::from_str_radix(digits, 16).unwrap_or(0);
    for _ in 0..count.parse::<usize>().unwrap_or(0) {
        text.push(byte)?;
    }
    Ok(())
}

#[cfg(test)]
mod tests {
    use super::*;

    const LIST: &str = "\
What the list is about.
=== 20240320 800 first
.A KLMO3 0310 Z HG {32}{.}
---
fault 10 at 16
=== 20240321 1 second
";

    #[test]
    fn reads_a_list(rt: HostRuntime) -> Result<(), AllocError> {
        let cases = read_list(rt.alloc(), LIST)?;
        assert_eq!(rt; cases.len(), 2);
        let first = &cases[0];
        assert_eq!(rt; first.name.as_str(), "first");
        assert_eq!(rt; (first.year, first.month, first.day), (2024, 3, 20));
        assert_eq!(rt; first.room, 800);
        assert_eq!(rt; first.text.as_slice(), b".A KLMO3 0310 Z HG 2".as_slice());
        assert!(rt; first.outcome.is_some());
        assert_eq!(rt; cases[1].name.as_str(), "second");
        assert!(rt; cases[1].outcome.is_none());
        Ok(())
    }

    #[test]
    fn gives_a_case_at_a_time(rt: HostRuntime) -> Result<(), AllocError> {
        let mut cases = Cases::new(LIST);
        let first = cases.next_case(rt.alloc())?;
        assert!(rt; first.is_some());
        if let Some(case) = &first {
            assert_eq!(rt; case.name.as_str(), "first");
            assert_eq!(rt; case.text.as_slice(), b".A KLMO3 0310 Z HG 2".as_slice());
        }
        let second = cases.next_case(rt.alloc())?;
        assert!(rt; second.is_some());
        if let Some(case) = &second {
            assert_eq!(rt; case.name.as_str(), "second");
            assert_eq!(rt; case.room, 1);
        }
        assert!(rt; cases.next_case(rt.alloc())?.is_none());
        Ok(())
    }
}
