// Parts of a text that know their place in it.
ghost use Rattle.std.specs.Prelude.{◌≡◌, ◌≤◌, length, take, drop, option_map, IfSome};
ghost use Rattle.second_text.specs.Parts.{blanks_before, ended, first_word, place_behind, signs_before, signs_behind, trimmed, word_length};

#[derive(Clone, Copy)]
pub struct Part<'a> {
    pub bytes: &'a [u8],
    // The place of the first byte.
    pub place: usize,
}

impl<'a> Part<'a> {
    pub fn new(bytes: &'a [u8], place: usize) -> Part<'a>
        ensures bytes { result.bytes.now ≡ bytes.now }
        ensures place { result.place ≡ place }
    {
        Part { bytes, place }
    }

    // The place behind the last byte.
    pub fn end(self) -> usize
        ensures { result ≡ place_behind self.entry.place (length self.entry.bytes.now) }
    {
        self.place.saturating_add(self.bytes.len())
    }

    // The first bytes, of which there are so many, and what stands behind them.
    pub(crate) fn split(self, count: usize) -> (Part<'a>, Part<'a>)
        requires { count ≤ length self.bytes.now }
        ensures front { result.0.bytes.now ≡ take count self.entry.bytes.now }
        ensures back { result.1.bytes.now ≡ drop count self.entry.bytes.now }
        ensures first { result.0.place ≡ self.entry.place }
        ensures second { result.1.place ≡ place_behind self.entry.place count }
    {
        let (bytes, others) = self.bytes.split_at(count);
        let first = Part::new(bytes, self.place);
        (first, Part::new(others, first.end()))
    }

    // The first word and what stands behind it.
    pub fn word(self) -> Option<(Part<'a>, Part<'a>)>
        ensures bytes { option_map (λ r. (r.0.bytes.now, r.1.bytes.now)) result ≡ first_word self.entry.bytes.now }
        ensures place { IfSome result (λ r. r.0.place ≡ place_behind self.entry.place (blanks_before self.entry.bytes.now)) }
        ensures behind { IfSome result (λ r. r.1.place ≡ place_behind r.0.place (length r.0.bytes.now)) }
    {
        let (_, rest) = self.split(blanks(self.bytes));
        if rest.bytes.is_empty() {
            return None;
        }
        Some(rest.split(word_length(rest.bytes)))
    }

    // The part with these signs taken off both ends. Where nothing is left it is empty.
    pub fn trimmed(self, signs: &[u8]) -> Part<'a>
        ensures bytes { result.bytes.now ≡ trimmed signs.now self.entry.bytes.now }
        ensures place { result.place ≡ place_behind self.entry.place (signs_before signs.now (ended signs.now self.entry.bytes.now)) }
    {
        let (rest, _) = self.split(self.bytes.len() - trailing(self.bytes, signs));
        let (_, kept) = rest.split(leading(rest.bytes, signs));
        kept
    }
}

// How many blanks a text begins with. A count of its own and no `leading`, which would look each byte up in a list of one.
fn blanks(text: &[u8]) -> usize
    ensures value { result ≡ blanks_before text.now }
    ensures bound { result ≤ length text.now }
{
    text.iter().take_while(|b| **b == b' ').count()
}

// How many bytes stand before its first blank.
fn word_length(text: &[u8]) -> usize
    ensures value { result ≡ word_length text.now }
    ensures bound { result ≤ length text.now }
{
    text.iter().take_while(|b| **b != b' ').count()
}

// How many of these signs it begins with.
fn leading(text: &[u8], signs: &[u8]) -> usize
    ensures value { result ≡ signs_before signs.now text.now }
    ensures bound { result ≤ length text.now }
{
    text.iter().take_while(|b| signs.contains(b)).count()
}

// And ends with.
fn trailing(text: &[u8], signs: &[u8]) -> usize
    ensures value { result ≡ signs_behind signs.now text.now }
    ensures bound { result ≤ length text.now }
{
    text.iter().rev().take_while(|b| signs.contains(b)).count()
}
