ghost use Rattle.std.specs.Prelude.{◌≡◌, OnOk, Some, cond, vec_len};
ghost use Rattle.reporting.specs.Tallies.{both, tally_text};

use anyhow::ensure;
use second::Outcome;
use std::fmt;
use std::ops::Add;

// What a number of decodes came to.
#[derive(Clone, Copy, Debug, Default, PartialEq, Eq)]
pub struct Tally {
    pub texts: usize,
    pub records: usize,
    pub faults: usize,
    pub differing: usize,
}

// Of both together; a count that does not fit stays at the greatest one.
impl Add for Tally {
    type Output = Tally;

    ghost add_gives = { λ a b r. r ≡ both a b };

    fn add(self, other: Tally) -> Tally {
        Tally {
            texts: self.texts.saturating_add(other.texts),
            records: self.records.saturating_add(other.records),
            faults: self.faults.saturating_add(other.faults),
            differing: self.differing.saturating_add(other.differing),
        }
    }
}

impl fmt::Display for Tally {
    ghost output = { λ t. Some (tally_text t) };

    fn fmt<W: fmt::Write>(&self, f: &mut fmt::Formatter<W>) -> fmt::Result {
        let records = self.records;
        let faults = self.faults;
        let differing = self.differing;
        write!(
            f,
            "{records} records, {faults} faults, {differing} differing"
        )
    }
}

impl Tally {
    // Of one text.
    pub fn of(outcome: &Outcome, good: bool) -> Tally
        ensures texts { result.texts ≡ 1 }
        ensures records { result.records ≡ vec_len outcome.now.records }
        ensures faults { result.faults ≡ vec_len outcome.now.faults }
        ensures differing { result.differing ≡ cond good 0 1 }
    {
        Tally {
            texts: 1,
            records: outcome.records.len(),
            faults: outcome.faults.len(),
            differing: usize::from(!good),
        }
    }
}

pub fn show_tally(rt: &HostRuntime, what: &str, tally: Tally) -> anyhow::Result<()> {
    let texts = tally.texts;
    println!(rt; "{texts} {what}: {tally}")?;
    Ok(())
}

// Ends well only where every text came out as told and alike from both decoders.
pub fn closing(rt: &HostRuntime, sum: Tally) -> anyhow::Result<()>
    ensures { OnOk result (sum.differing ≡ 0) }
{
    show_tally(rt, "texts in all", sum)?;
    ensure!(
        sum.differing == 0,
        "the decoders differ, or a case is not as told"
    );
    let texts = sum.texts;
    println!(rt; "{texts} texts, both decoders agree")?;
    Ok(())
}
