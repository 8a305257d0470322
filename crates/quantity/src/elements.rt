// The table of physical elements, and the search in it.
ghost use Rattle.std.specs.Prelude.{◌≡◌, map};
ghost use Rattle.std.specs.List.{find};
ghost use Rattle.quantity.specs.Elements.{element_of, elements, row_of, row_named};

use crate::element::Element;

// First and second letter, numerator, denominator, offset in ten-thousandths, and own duration. Plain rows, since a static cannot hold
// a type with an invariant, and a const would be built anew at each search.
#[rattlefmt::skip]
static ELEMENTS: [(u8, u8, u64, u64, u64, u8); 32] = [
    (b'T', b'A', 9, 5, 320_000, b'I'),
    (b'T', b'D', 9, 5, 320_000, b'I'),
    (b'T', b'M', 9, 5, 320_000, b'I'),
    (b'T', b'P', 9, 5, 320_000, b'I'),
    (b'T', b'S', 9, 5, 320_000, b'I'),
    (b'P', b'P', 5, 127, 0, b'D'),
    (b'P', b'C', 5, 127, 0, b'I'),
    (b'S', b'W', 5, 127, 0, b'I'),
    (b'S', b'D', 50, 127, 0, b'I'),
    (b'S', b'F', 50, 127, 0, b'D'),
    (b'G', b'D', 50, 127, 0, b'I'),
    (b'I', b'T', 50, 127, 0, b'I'),
    (b'H', b'G', 1250, 381, 0, b'I'),
    (b'H', b'K', 1250, 381, 0, b'I'),
    (b'H', b'L', 1250, 381, 0, b'I'),
    (b'H', b'P', 1250, 381, 0, b'I'),
    (b'H', b'T', 1250, 381, 0, b'I'),
    (b'H', b'F', 1250, 381, 0, b'I'),
    (b'H', b'Z', 1250, 381, 0, b'I'),
    (b'Q', b'R', 1_953_125, 55_306_341, 0, b'I'),
    (b'Q', b'I', 1_953_125, 55_306_341, 0, b'I'),
    (b'Q', b'T', 1_953_125, 55_306_341, 0, b'I'),
    (b'Q', b'D', 1_953_125, 55_306_341, 0, b'I'),
    (b'Q', b'S', 1_953_125, 55_306_341, 0, b'I'),
    (b'U', b'L', 15_625, 25_146, 0, b'D'),
    (b'U', b'C', 15_625, 25_146, 0, b'I'),
    (b'X', b'V', 15_625, 25_146, 0, b'I'),
    (b'X', b'R', 1, 1, 0, b'I'),
    (b'U', b'D', 1, 1, 0, b'I'),
    (b'S', b'A', 1, 1, 0, b'I'),
    (b'R', b'P', 1, 1, 0, b'D'),
    (b'R', b'I', 1, 1, 0, b'D'),
];

fn table() -> &'static [(u8, u8, u64, u64, u64, u8)]
    ensures { result.now ≡ map row_of elements }
{
    &ELEMENTS
}

fn find_row(
    rows: &[(u8, u8, u64, u64, u64, u8)],
    first: u8,
    second: u8,
) -> Option<(u8, u8, u64, u64, u64, u8)>
    ensures { result ≡ find (row_named first second) rows.now }
{
    rows.iter()
        .copied()
        .find(|row| row.0 == first && row.1 == second)
}

// The element of two letters.
#[tactic(auto, using(crate::proofs::Rows::none_found, crate::proofs::Rows::found_fair, crate::proofs::Rows::found_element))]
pub fn element_of(first: u8, second: u8) -> Option<Element>
    ensures { result ≡ element_of first second }
{
    let (first, second, numerator, denominator, offset, duration) = find_row(
        table(),
        first,
        second,
    )?;
    Some(Element {
        first,
        second,
        numerator,
        denominator,
        offset,
        duration,
    })
}
