// Keeps a guest's slip in the file `slip` of the folder that it runs in, and answers lines from standard input.
#![tactic(auto)]

use crate::store::Store;
use anyhow::bail;
use console::input::Lines;
use console::slip::{SlipAnswer, read_slip_command};
use guest::answers::ask;
use std::env;
use std::io::{BufWriter, Write};
use std::process::ExitCode;

mod store;

// Whether the arguments ask for help: there is no other.
fn asks_help(rt: &HostRuntime) -> anyhow::Result<bool> {
    let mut args = env::args(rt)?;
    let _program = args.next();
    match args.next() {
        None => Ok(false),
        Some(word) if word.as_str() == "--help" => Ok(true),
        Some(_) => bail!("expected no argument, or --help"),
    }
}

fn usage(out: &mut impl Write) -> anyhow::Result<()> {
    writeln!(
        out,
        "usage: slip. It reads these lines:\n{}",
        SlipAnswer::Usage
    )?;
    Ok(())
}

// Answers a line. What is added is in the file before it is told.
fn answer(
    rt: &HostRuntime,
    out: &mut impl Write,
    store: &mut Store,
    line: &[u8],
) -> anyhow::Result<()> {
    let answer = match read_slip_command(line) {
        Ok(command) => {
            let mut slip = store.slip();
            let told = ask(&mut slip, &command);
            store.keep(rt, slip)?;
            told.unwrap_or_else(|why| Some(SlipAnswer::Refused { why }))
        }
        Err(expected) => Some(SlipAnswer::Error { expected }),
    };
    if let Some(answer) = answer {
        writeln!(out, "{answer}")?;
    }
    Ok(())
}

fn answer_all(rt: &HostRuntime, out: &mut impl Write) -> anyhow::Result<()> {
    let mut store = Store::open(rt)?;
    let mut lines = Lines::new(rt.alloc(), rt.stdin())?;
    // A `loop` would owe a measure, and input has none: so its lines are counted.
    for _ in 0..u64::MAX {
        if !lines.advance()? {
            break;
        }
        answer(rt, out, &mut store, lines.line())?;
        if !lines.has_more() {
            out.flush()?;
        }
    }
    Ok(())
}

// What was answered before an error is written too.
fn run(rt: &HostRuntime) -> anyhow::Result<()> {
    let mut out = BufWriter::new(rt.alloc(), rt.stdout())?;
    let answered = if asks_help(rt)? {
        usage(&mut out)
    } else {
        answer_all(rt, &mut out)
    };
    out.flush()?;
    answered
}

fn main(rt: HostRuntime) -> ExitCode {
    match run(&rt) {
        Ok(()) => ExitCode::SUCCESS,
        Err(why) => {
            // Where that fails too, nothing can be said.
            let _ = eprintln!(rt; "error: {why:#}");
            ExitCode::FAILURE
        }
    }
}
