// How each byte of a line reads, and the scans that this decides.
ghost use Rattle.std.specs.Prelude.{◌≡◌, ◌+◌, ◌-◌, ◌≤◌, false, length};
ghost use Rattle.items.specs.Marks.{after, body_len, core, edge, mark_of, marks, passes};
ghost use Rattle.std.specs.Iterator.{YieldsFirst, item_count};
ghost use Rattle.std.specs.List.{prefix_len};

// What a byte reads as.
#[derive(Clone, Copy, PartialEq, Eq)]
pub enum Mark {
    Blank,
    Slash,
    Text,
}

// What a run of bytes is made of: blanks; blanks and slashes; all but blanks; all but slashes.
#[derive(Clone, Copy, PartialEq, Eq)]
pub enum Run {
    Blanks,
    Loose,
    Word,
    Stretch,
}

// Whether a comment is open behind a byte. A colon opens one, and the next closes it.
fn is_open_after(inside: bool, b: u8) -> bool
    ensures { result ≡ after inside b }
{
    if b == b':' { !inside } else { inside }
}

fn mark_of(inside: bool, b: u8) -> Mark
    ensures { result ≡ mark_of inside b }
{
    if inside || b == b':' || b == b' ' {
        Mark::Blank
    } else if b == b'/' {
        Mark::Slash
    } else {
        Mark::Text
    }
}

fn belongs(run: Run, mark: Mark) -> bool
    ensures { result ≡ passes run mark }
{
    match mark {
        Mark::Blank => run != Run::Word,
        Mark::Slash => run == Run::Loose || run == Run::Word,
        Mark::Text => run == Run::Word || run == Run::Stretch,
    }
}

// Gives what each byte reads as, one after another; `inside` where a comment is open before the next.
#[derive(Clone, Copy)]
struct Marks<'a> {
    rest: &'a [u8],
    inside: bool,
}

impl<'a> Iterator for Marks<'a> {
    type Item = Mark;

    ghost next_gives = { YieldsFirst (λ s. marks s.inside s.rest.now) };

    ghost remaining = { item_count (λ s. marks s.inside s.rest.now) };

    fn next(&mut self) -> Option<Mark> {
        let (b, rest) = self.rest.split_first()?;
        let mark = mark_of(self.inside, *b);
        self.inside = is_open_after(self.inside, *b);
        self.rest = rest;
        Some(mark)
    }
}

fn marks_of(bytes: &[u8]) -> Marks<'_>
    ensures { marks result.inside result.rest.now ≡ marks false bytes.now }
{
    Marks {
        rest: bytes,
        inside: false,
    }
}

// How many bytes at the front belong to the run.
pub fn run_len(bytes: &[u8], run: Run) -> usize
    ensures value { result ≡ prefix_len (passes run) (marks false bytes.now) }
    ensures valid { result ≤ length bytes.now }
{
    let end = marks_of(bytes).position(|mark| !belongs(run, mark));
    end.unwrap_or(bytes.len())
}

// How many bytes there are up to the last that does not belong to the run.
fn edge_len(bytes: &[u8], run: Run) -> usize
    ensures value { result ≡ edge run (marks false bytes.now) }
    ensures valid { result ≤ length bytes.now }
{
    // A loop, since marks are read from the front alone.
    let mut behind: usize = 0;
    for mark in marks_of(bytes) {
        behind = if belongs(run, mark) { behind + 1 } else { 0 };
    }
    bytes.len() - behind
}

// The bytes less the runs at both ends, and how many stand before them.
pub fn trim(bytes: &[u8], run: Run) -> (usize, &[u8])
    ensures lead { result.0 ≡ prefix_len (passes run) (marks false bytes.now) }
    ensures value { result.1.now ≡ core run bytes.now }
    ensures valid { result.0 + length result.1.now ≤ length bytes.now }
{
    let lead = run_len(bytes, run);
    let end = edge_len(bytes, run);
    (lead, &bytes[lead..end.max(lead)])
}

// How many bytes are left of a body line less the blanks at its end and one slash before them.
pub fn body_len(bytes: &[u8]) -> usize
    ensures value { result ≡ body_len (marks false bytes.now) }
    ensures valid { result ≤ length bytes.now }
{
    let end = edge_len(bytes, Run::Blanks);
    let last = end.saturating_sub(1);
    match marks_of(bytes).nth(last) {
        Some(Mark::Slash) => last,
        _ => end,
    }
}
