// Lines are read and answered, until the input ends.
use anyhow::{Context, bail};
use console::answer::Answer;
use console::input::Lines;
use console::line::read_hut_command;
use desk::answers::opened;
use desk::asks::{ask, or_refused};
use desk::calls::Desk;
use desk::page::Page;
use desk::reply::Reply;
use desk::says::say;
use desk::station::Station;
use journal::disk::find;
use std::fs::{File, OpenOptions, TryLockError};
use std::io::Write;

const FOLDER: &str = ".";

const PATH: &str = "line";

// The journal's file, made if there is none. As long as it is open, no other `hut` has it.
fn hold(rt: &HostRuntime) -> anyhow::Result<File> {
    let mut how = OpenOptions::new();
    how.append(true).create(true);
    let file = how
        .open(rt, PATH)
        .context("the file `line` cannot be opened")?;
    match file.try_lock() {
        Ok(()) => Ok(file),
        Err(TryLockError::WouldBlock) => bail!("another `hut` runs in this folder"),
        Err(TryLockError::Error(why)) => Err(why).context("the file `line` cannot be locked"),
    }
}

pub fn serve(rt: &HostRuntime, out: &mut impl Write, hut: u8) -> anyhow::Result<()> {
    let heap = rt.alloc();
    let _held = hold(rt)?;
    let found = find(rt, FOLDER, PATH).context("the file `line` cannot be read")?;
    let opening = Station::open(heap, hut, found.file, found.bytes.as_slice())?;
    let cut = opening.cut;
    let mut station = opening.station;
    if let Some(replica) = station.shown() {
        writeln!(out, "{}", opened(replica, cut))?;
    }
    answer_all(rt, out, &mut station)
}

// Answers go out before the program waits for more input: where no whole line is at hand.
fn answer_all(rt: &HostRuntime, out: &mut impl Write, desk: &mut impl Desk) -> anyhow::Result<()> {
    let heap = rt.alloc();
    let mut page = Page::new(heap)?;
    let mut lines = Lines::new(heap, rt.stdin())?;
    out.flush()?;
    // A `loop` would owe a measure, and input has none: so its lines are counted.
    for _ in 0..u64::MAX {
        if !lines.advance()? {
            break;
        }
        answer(out, desk, &mut page, lines.line())?;
        if !lines.has_more() {
            out.flush()?;
        }
    }
    desk.sync()?;
    Ok(())
}

fn answer(
    out: &mut impl Write,
    desk: &mut impl Desk,
    page: &mut Page,
    line: &[u8],
) -> anyhow::Result<()> {
    let asked = read_hut_command(line);
    let reply = match asked.command {
        Ok(command) => or_refused(ask(desk, page, &command, asked.letter))?,
        Err(expected) => Reply::Line(Answer::Error { expected }),
    };
    say(out, desk, page, reply)?;
    Ok(())
}
