// The rows of an outcome: its records, its faults and its answer.
use second::{Answer, Outcome};
use std::alloc::{AllocError, Global};

// The columns of a listing line, each from a byte up to another.
const COLUMNS: [(usize, usize); 10] = [
    (0, 8),
    (9, 23),
    (24, 36),
    (37, 44),
    (45, 49),
    (50, 64),
    (65, 66),
    (67, 68),
    (69, 70),
    (71, 79),
];

// The fields of a listing line in a row, with `-` for one that is absent.
fn row(heap: Global, line: &str) -> Result<String, AllocError> {
    let mut out = String::new(heap);
    for (from, to) in COLUMNS {
        if from > 0 {
            out.push(' ')?;
        }
        let field = line.get(from..to).unwrap_or("").trim();
        out.push_str(if field.is_empty() { "-" } else { field })?;
    }
    Ok(out)
}

fn push_records(heap: Global, out: &mut Vec<String>, outcome: &Outcome) -> Result<(), AllocError> {
    for line in outcome.records.iter() {
        out.push(row(heap, line.as_str())?)?;
    }
    Ok(())
}

fn push_faults(heap: Global, out: &mut Vec<String>, outcome: &Outcome) -> Result<(), AllocError> {
    for fault in outcome.faults.iter() {
        let number = fault.refusal.number();
        let place = fault.place;
        out.push(format!(in heap; "fault {number} at {place}")?)?;
    }
    Ok(())
}

// Records, then faults, then the answer where it is not 0.
pub fn rows(heap: Global, outcome: &Outcome) -> Result<Vec<String>, AllocError> {
    let mut out = Vec::new(heap);
    push_records(heap, &mut out, outcome)?;
    push_faults(heap, &mut out, outcome)?;
    if outcome.answer != Answer::Ended {
        let number = outcome.answer.number();
        out.push(format!(in heap; "(decode answers {number})")?)?;
    }
    Ok(out)
}

// The faults in short, as number@place.
pub fn faults(heap: Global, outcome: &Outcome) -> Result<String, AllocError> {
    if outcome.faults.is_empty() {
        return String::from_str(heap, " none");
    }
    let mut out = String::new(heap);
    for fault in outcome.faults.iter() {
        let number = fault.refusal.number();
        let place = fault.place;
        write!(out, " {number}@{place}")?;
    }
    Ok(out)
}
