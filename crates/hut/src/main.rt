// The program of one hut: it keeps its journal in the file `line` of the folder that it runs in, and answers lines from standard input.
#![tactic(auto)]

use crate::asked::{Asked, read_args};
use crate::serve::serve;
use bookings::limits::HUTS;
use console::answer::starts::Usage;
use std::io::{BufWriter, Write};
use std::process::ExitCode;

mod asked;
mod serve;

// What was answered before an error is written too.
fn run(rt: &HostRuntime) -> anyhow::Result<()> {
    let mut out = BufWriter::new(rt.alloc(), rt.stdout())?;
    let answered = match read_args(rt)? {
        Asked::Hut(hut) => serve(rt, &mut out, hut),
        Asked::Help => usage(&mut out),
    };
    out.flush()?;
    answered
}

fn usage(out: &mut impl Write) -> anyhow::Result<()> {
    writeln!(
        out,
        "usage: hut N, for hut N of 0 to {}. It reads these lines:\n{}",
        HUTS - 1,
        Usage::Hut
    )?;
    Ok(())
}

fn main(rt: HostRuntime) -> ExitCode {
    match run(&rt) {
        Ok(()) => ExitCode::SUCCESS,
        Err(why) => {
            // Where that fails too, nothing can be said.
            let _ = eprintln!(rt; "error: {why:#}");
            ExitCode::FAILURE
        }
    }
}
