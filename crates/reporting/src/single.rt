// What is printed of single texts.
ghost use Rattle.std.specs.Prelude.{◌≡◌, IfOk};
ghost use Rattle.reporting.specs.Rows.{is_as_told, same_rows};

use cases::Case;
use second::Outcome;
use std::alloc::{AllocError, Global};

// How much is printed of the outcome of a case: how many records it has, or each of them besides.
#[derive(Clone, Copy, Debug, PartialEq, Eq)]
pub enum Detail {
    Counts,
    Records,
}

// Whether the same rows are told as came.
fn same_rows(came: &[String], told: &[String]) -> bool
    ensures { result ≡ same_rows came.now told.now }
{
    came == told
}

// Whether an outcome is told with a case, and these are its rows. Where they are not, both are shown.
pub fn is_as_told(rt: &HostRuntime, case: &Case, came: &[String]) -> anyhow::Result<bool>
    ensures { IfOk result (λ same. same ≡ is_as_told case.now.outcome came.now) }
{
    let Some(told) = &case.outcome else {
        return Ok(false);
    };
    let same = same_rows(came, told.as_slice());
    if !same {
        telling::show(rt, came, told.as_slice())?;
    }
    Ok(same)
}

fn case_line(
    heap: Global,
    name: &str,
    outcome: &Outcome,
    verdict: &str,
) -> Result<String, AllocError> {
    let records = outcome.records.len();
    let faults = telling::faults(heap, outcome)?;
    let answer = outcome.answer.number();
    format!(in heap; "{name}: {records} records, faults{faults}, answer {answer}{verdict}")
}

// The outcome of a case, with its records as listing lines where they are asked for.
pub fn show_case(
    rt: &HostRuntime,
    name: &str,
    outcome: &Outcome,
    verdict: &str,
    detail: Detail,
) -> anyhow::Result<()> {
    let line = case_line(rt.alloc(), name, outcome, verdict)?;
    println!(rt; "{line}")?;
    match detail {
        Detail::Counts => Ok(()),
        Detail::Records => telling::say_all(rt, outcome.records.as_slice()),
    }
}

pub fn show_difference(
    rt: &HostRuntime,
    name: &str,
    text: &[u8],
    place: usize,
) -> anyhow::Result<()> {
    println!(rt; "{name}, damaged at {place}: THE DECODERS DIFFER")?;
    telling::show_text(rt, text)
}
