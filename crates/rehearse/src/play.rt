// What each line of the script does, and what is written for it.
use crate::carry::carry;
use crate::say::{or_refuse, say};
use anyhow::bail;
use console::answer::Answer;
use console::answer::starts::Usage;
use console::command::{Command, Expected};
use console::hex::Hex;
use console::line::read_command;
use desk::asks::{ask, or_refused};
use desk::page::Page;
use journal::opened::NotOpened;
use rehearsal::cast::Cast;
use std::alloc::Global;
use std::io;
use std::io::Write;

// The stage is empty until the huts are named.
pub fn play(
    out: &mut impl Write,
    heap: Global,
    page: &mut Page,
    stage: &mut Option<Cast>,
    line: &[u8],
) -> anyhow::Result<()> {
    let asked = read_command(line);
    let command = match asked.command {
        Ok(command) => command,
        Err(expected) => {
            say(out, Answer::Error { expected })?;
            return Ok(());
        }
    };
    match stage {
        Some(cast) => answer(out, heap, page, cast, &command, asked.letter),
        None => open(out, heap, stage, &command),
    }
}

// Before the huts are named, nothing else can be asked for.
fn open(
    out: &mut impl Write,
    heap: Global,
    stage: &mut Option<Cast>,
    command: &Command,
) -> anyhow::Result<()> {
    match command {
        Command::Pass => {}
        Command::Huts { huts } => match Cast::new(heap, huts.as_slice()) {
            Ok(cast) => *stage = Some(cast),
            Err(NotOpened::Refused(why)) => say(out, Answer::Refused { why })?,
            Err(NotOpened::Memory) => bail!("no memory for the huts"),
            Err(why) => return Err(why.into()),
        },
        _ => say_expected(out, Expected::HutsFirst)?,
    }
    Ok(())
}

// A command of the rehearsal, or one for the hut that is meant.
fn answer(
    out: &mut impl Write,
    heap: Global,
    page: &mut Page,
    cast: &mut Cast,
    command: &Command,
    letter: Hex,
) -> anyhow::Result<()> {
    match command {
        Command::Pass => {}
        Command::Huts { .. } => say_expected(out, Expected::HutsOnce)?,
        Command::At { hut } => {
            let meant = cast.at(*hut).map_err(Into::into);
            or_refuse(out, meant)?;
        }
        Command::Walk { .. }
        | Command::Lose { .. }
        | Command::Again { .. }
        | Command::Cut { .. }
        | Command::Stop { .. } => carry(out, heap, cast, command)?,
        Command::Help => {
            let usage = Usage::Rehearsal;
            say(out, Answer::Usage { usage })?;
            at_hut(out, page, cast, command, letter)?;
        }
        _ => at_hut(out, page, cast, command, letter)?,
    }
    Ok(())
}

// What the hut that is meant is told, and answers.
fn at_hut(
    out: &mut impl Write,
    page: &mut Page,
    cast: &mut Cast,
    command: &Command,
    letter: Hex,
) -> anyhow::Result<()> {
    let reply = or_refused(ask(cast, page, command, letter))?;
    desk::says::say(out, cast, page, reply)?;
    Ok(())
}

fn say_expected(out: &mut impl Write, expected: Expected) -> io::Result<()> {
    say(out, Answer::Error { expected })
}
