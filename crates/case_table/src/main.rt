// Six cases that wardens ask about, each played by replicas over journals that hand letters on to each other, and what is shown then.
#![tactic(auto)]

mod cases;
mod stage;

use cases::{ahead, alike, cut_back, gone_first, kept, late};

fn main(rt: HostRuntime) -> anyhow::Result<()> {
    alike(&rt)?;
    late(&rt)?;
    gone_first(&rt)?;
    cut_back(&rt)?;
    kept(&rt)?;
    ahead(&rt)
}
