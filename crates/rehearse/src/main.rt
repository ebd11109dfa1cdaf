// Plays a script from standard input with some huts in memory, and answers each line.
#![tactic(auto)]

use console::input::Lines;
use desk::page::Page;
use play::play;
use std::io::{BufWriter, Write};
use std::process::ExitCode;

mod carry;
mod play;
mod say;

// Answers go out before the program waits for more input: where no whole line is at hand.
fn answer_all(rt: &HostRuntime, out: &mut impl Write) -> anyhow::Result<()> {
    let heap = rt.alloc();
    let mut lines = Lines::new(heap, rt.stdin())?;
    let mut page = Page::new(heap)?;
    let mut stage = None;
    // A `loop` would owe a measure, and input has none: so its lines are counted.
    for _ in 0..u64::MAX {
        if !lines.advance()? {
            break;
        }
        play(out, heap, &mut page, &mut stage, lines.line())?;
        if !lines.has_more() {
            out.flush()?;
        }
    }
    Ok(())
}

// What was answered before an error is written too.
fn run(rt: &HostRuntime) -> anyhow::Result<()> {
    let mut out = BufWriter::new(rt.alloc(), rt.stdout())?;
    let answered = answer_all(rt, &mut out);
    out.flush()?;
    answered
}

fn main(rt: HostRuntime) -> ExitCode {
    match run(&rt) {
        Ok(()) => ExitCode::SUCCESS,
        Err(why) => {
            // Where that fails too, nothing can be said.
            let _ = eprintln!(rt; "error: {why:#}");
            ExitCode::FAILURE
        }
    }
}
