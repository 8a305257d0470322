// What the first decoder makes of a text, held to what the second made of it.
#![tactic(auto)]

mod peer;

ghost use Rattle.std.specs.Prelude.{◌≡◌, ◌+◌, IfOk, flat_map, length, min};
ghost use Rattle.agreement.specs.Agreement.{as_by_rules, ended, same_answer, same_fault, same_faults, same_outcome};
ghost use Rattle.daylight.specs.Settings.{setting};
ghost use Rattle.daylight.specs.Sundays.{law_daylight};
ghost use Rattle.std.specs.List.{list_all, zip};
ghost use Rattle.std.specs.Str.{bytes_eq};

use calendar::date::Date;
use daylight::law_rule::LawRule;
use line::LINE_LENGTH;
pub use peer::FirstDecoder;
use refusals::{Fault, Refusal};
use second::Outcome;
use shef::decode::{Answer, decode};
use sink::listing::Listing;
use slots::list::Slots;
use std::alloc::{AllocError, Global};

// Whether the listing has these lines, each with a line feed behind it, and nothing else.
fn same_lines(heap: Global, listing: &[u8], lines: &[String]) -> Result<bool, AllocError>
    ensures { IfOk result (λ same. same ≡ bytes_eq listing.now (flat_map ended lines.now)) }
{
    let mut wanted = Vec::new(heap);
    for line in lines {
        wanted.extend_from_slice(line.as_bytes())?;
        wanted.push(b'\n')?;
    }
    Ok(listing == wanted.as_slice())
}

// Whether number and place are the same.
fn same_fault(fault: &Fault, told: &second::Fault) -> bool
    ensures { result ≡ same_fault (fault.now, told.now) }
{
    fault.refusal.number() == told.refusal.number() && fault.place == told.place
}

// Whether there are as many faults, each of the same number and place.
fn same_faults(faults: &[Fault], told: &[second::Fault]) -> bool
    ensures { result ≡ same_faults faults.now told.now }
{
    faults.len() == told.len() && alike(faults, told)
}

// Whether each fault is like the one at its place, as far as there are both.
fn alike(faults: &[Fault], told: &[second::Fault]) -> bool
    ensures { result ≡ list_all same_fault (zip faults.now told.now) }
{
    faults
        .iter()
        .zip(told.iter())
        .all(|(a, b)| same_fault(a, b))
}

// Whether the number is the same, and the counts are those of the records and faults of the other.
fn same_answer(answer: Answer, outcome: &Outcome) -> bool
    ensures { result ≡ same_answer answer outcome.now }
{
    answer.ending.number() == outcome.answer.number()
        && answer.delivered == outcome.records.len()
        && answer.found == outcome.faults.len() as u64
}

// Whether answer, lines and faults are all the same.
fn same_outcome(
    heap: Global,
    answer: Answer,
    listing: &[u8],
    faults: &[Fault],
    outcome: &Outcome,
) -> Result<bool, AllocError>
    ensures { IfOk result (λ same. same ≡ same_outcome answer listing.now faults.now outcome.now) }
{
    let lines_agree = same_lines(heap, listing, outcome.records.as_slice())?;
    let faults_agree = same_faults(faults, outcome.faults.as_slice());
    Ok(lines_agree && faults_agree && same_answer(answer, outcome))
}

// Whether the first decoder gives the same outcome for a text under a current date and with room for
// so many records: the same answer, the same listing lines and the same faults. A text gives less than
// one record and one fault for each of its bytes and one besides, so more room would stay empty.
pub fn compare(
    heap: Global,
    today: Date,
    room: usize,
    text: &[u8],
    outcome: &Outcome,
) -> Result<bool, AllocError>
    ensures { IfOk result (λ same. same ≡ as_by_rules (setting today (λ r. law_daylight r)) (min room (length text.now + 1)) text.now outcome.now) }
{
    let room = room.min(text.len().saturating_add(1));
    let size = room.checked_mul(LINE_LENGTH).ok_or(AllocError)?;
    let mut bytes = vec![in heap; 0u8; size]?;
    let mut places = vec![in heap; Refusal::NoRoom.at(0); text.len().saturating_add(2)]?;
    let mut log = Listing::new(&mut bytes);
    let mut faults = Slots::new(&mut places);
    let answer = decode(text, today, &LawRule, &mut log, &mut faults);
    same_outcome(heap, answer, log.lines(), faults.as_slice(), outcome)
}
