// What the arguments ask for.
use anyhow::bail;
use bookings::limits::HUTS;
use console::number::read_hut;
use std::env;

pub enum Asked {
    Hut(u8),
    Help,
}

// No argument asks for help too.
pub fn read_args(rt: &HostRuntime) -> anyhow::Result<Asked> {
    let mut args = env::args(rt)?;
    let _program = args.next();
    let Some(first) = args.next() else {
        return Ok(Asked::Help);
    };
    if args.next().is_some() {
        bail!(
            "expected one argument, the number of a hut, 0 to {}",
            HUTS - 1
        );
    }
    if first.as_str() == "--help" {
        return Ok(Asked::Help);
    }
    match read_hut(first.as_str().as_bytes()) {
        Some(hut) => Ok(Asked::Hut(hut)),
        None => bail!("expected the number of a hut, 0 to {}", HUTS - 1),
    }
}
