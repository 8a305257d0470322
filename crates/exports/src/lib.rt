// Decode for programs in C and in Rust.
#![tactic(auto)]

ghost use Rattle.std.specs.Prelude.{◌≡◌, ◌*◌, ◌/◌, length, take, drop};
ghost use Rattle.events.specs.Events.{met, records};
ghost use Rattle.exports.specs.Lawful.{lawful};
ghost use Rattle.line.specs.Lines.{line};
ghost use Rattle.shef.specs.Decodes.{answer_of, counted, decoded, delivered as delivered_of};
ghost use Rattle.std.specs.List.{flat_map};

use calendar::date::Date;
use daylight::law_rule::LawRule;
use refusals::Refusal;
use shef::decode::decode;
use sink::listing::Listing;
use slots::list::Slots;

// What a decode answers: 0, 1 or 14, the records delivered and the faults found. The number stands for the ending, as C reads it.
#[repr(C)]
#[derive(Clone, Copy)]
pub struct Outcome {
    pub number: u8,
    pub delivered: usize,
    pub found: u64,
}

// Reads `text` under a current date and the law rule into a listing over all of `bytes`. Faults are counted, and none is listed.
#[unsafe(no_mangle)]
pub extern "C" fn shef_decode(
    text: &[u8],
    year: u16,
    month: u8,
    day: u8,
    bytes: &mut [u8],
) -> Outcome
    ensures lines { take (80 * result.delivered) bytes.new ≡ flat_map line (take (length bytes.old / 80) (records (decoded (lawful year month day) text.now))) }
    ensures behind { drop (80 * result.delivered) bytes.new ≡ drop (80 * result.delivered) bytes.old }
    ensures number { result.number ≡ answer_of (lawful year month day) (length bytes.old / 80) text.now }
    ensures delivered { result.delivered ≡ delivered_of (length bytes.old / 80) (decoded (lawful year month day) text.now) }
    ensures found { result.found ≡ counted (length (met (length bytes.old / 80) (decoded (lawful year month day) text.now))) }
{
    let mut places = [Refusal::NoRoom.at(0); 0];
    let mut log = Listing::new(bytes);
    let mut faults = Slots::new(&mut places);
    let today = Date { year, month, day };
    let answer = decode(text, today, &LawRule, &mut log, &mut faults);
    Outcome {
        number: answer.ending.number(),
        delivered: answer.delivered,
        found: answer.found,
    }
}
