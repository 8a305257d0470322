// Items between slashes.
use crate::parts::Part;
use std::alloc::{AllocError, Global};

// The part cut at its slashes, each piece trimmed.
fn cut(heap: Global, within: Part<'_>) -> Result<Vec<Part<'_>>, AllocError> {
    let mut found = Vec::new(heap);
    // A piece of `split` does not know its place.
    let mut place = within.place;
    for bytes in within.bytes.split(|b| *b == b'/') {
        found.push(Part::new(bytes, place).trimmed(b" "))?;
        place = place.saturating_add(bytes.len()).saturating_add(1);
    }
    Ok(found)
}

// The items of an opening or a continuation: slashes at both ends fall together with the line breaks.
pub fn message_items(heap: Global, text: Part<'_>) -> Result<Vec<Part<'_>>, AllocError> {
    cut(heap, text.trimmed(b" /"))
}

// The items of a body line: one slash at the end is dropped.
pub fn body_items(heap: Global, text: Part<'_>) -> Result<Vec<Part<'_>>, AllocError> {
    let whole = text.trimmed(b" ");
    let unslashed = whole.bytes.strip_suffix(b"/").unwrap_or(whole.bytes);
    let rest = Part::new(unslashed, whole.place);
    if rest.trimmed(b" ").bytes.is_empty() {
        return Ok(Vec::new(heap));
    }
    cut(heap, rest)
}
