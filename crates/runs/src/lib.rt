// The runs of the second decoder over all cases and their damaged forms. Outcomes that are told with a
// case are held to what came, and every outcome is held to that of the first decoder.
#![tactic(auto)]

mod wrong;

use agreement::FirstDecoder;
use anyhow::ensure;
use reporting::{Detail, Tally};

// A list in which something is wrong has to come out so: a run that takes it for right would tell nothing.
fn try_wrong(rt: &HostRuntime, peer: FirstDecoder, list: &str) -> anyhow::Result<()> {
    let sum = trials::try_list(rt, &peer, list, Detail::Records)?;
    ensure!(
        reporting::closing(rt, sum).is_err(),
        "what is wrong is not reported"
    );
    Ok(())
}

// What all lists come to.
fn try_all(
    rt: &HostRuntime,
    peer: FirstDecoder,
    lists: &[&str],
    detail: Detail,
) -> anyhow::Result<Tally> {
    let mut sum = Tally::default();
    for list in lists {
        sum = sum + trials::try_list(rt, &peer, list, detail)?;
    }
    Ok(sum)
}

// First the lists that are wrong, then all others.
pub fn run(rt: &HostRuntime) -> anyhow::Result<()> {
    let first = FirstDecoder { years_on: 0 };
    try_wrong(rt, first, wrong::TOLD_WRONGLY)?;
    try_wrong(rt, FirstDecoder { years_on: 1 }, wrong::LAST_YEAR)?;
    let examples = try_all(rt, first, &cases::EXAMPLES, Detail::Records)?;
    let others = try_all(rt, first, &cases::TRIALS, Detail::Counts)?;
    reporting::closing(rt, examples + others)
}
