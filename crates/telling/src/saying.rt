// What is printed of outcomes and texts.
ghost use Rattle.std.specs.Prelude.{◌≡◌};
ghost use Rattle.telling.specs.Verdicts.{verdict_of};

use std::alloc::{AllocError, Global};

// What is said behind a case: that it came out otherwise than it is told, or else that the decoders differ on it.
pub fn verdict(alike: bool, as_told: bool) -> &'static str
    ensures { result.now ≡ verdict_of alike as_told }
{
    match (as_told, alike) {
        (false, _) => ", NOT AS TOLD",
        (true, false) => ", THE DECODERS DIFFER",
        (true, true) => "",
    }
}

pub fn say_all(rt: &HostRuntime, lines: &[String]) -> anyhow::Result<()> {
    for line in lines {
        println!(rt; "{line}")?;
    }
    Ok(())
}

pub fn show(rt: &HostRuntime, came: &[String], told: &[String]) -> anyhow::Result<()> {
    println!(rt; "  what came:")?;
    say_all(rt, came)?;
    println!(rt; "  what is told:")?;
    say_all(rt, told)
}

// A text with the bytes that do not print as their numbers in braces.
fn printable(heap: Global, text: &[u8]) -> Result<String, AllocError> {
    let mut out = String::new(heap);
    for b in text {
        match *b {
            b'\n' | b' '..=b'~' => out.push(char::from(*b))?,
            other => write!(out, "{{{other:02x}}}")?,
        }
    }
    Ok(out)
}

// A text on which the decoders differ.
pub fn show_text(rt: &HostRuntime, text: &[u8]) -> anyhow::Result<()> {
    let shown = printable(rt.alloc(), text)?;
    println!(rt; "{shown}")?;
    Ok(())
}
