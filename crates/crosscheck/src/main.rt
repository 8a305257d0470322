// The cross-check of the two decoders.
#![tactic(auto)]

fn main(rt: HostRuntime) -> anyhow::Result<()> {
    runs::run(&rt)
}
