// Letters that are carried, and huts that crash.
use crate::say::{or_refuse, say};
use console::answer::Answer;
use console::answer::letters::Carried;
use console::command::Command;
use desk::answers::opened;
use desk::says::say_takings;
use network::unplayed::Unplayed;
use rehearsal::cast::Cast;
use std::alloc::Global;
use std::io::Write;

pub fn carry(
    out: &mut impl Write,
    heap: Global,
    cast: &mut Cast,
    command: &Command,
) -> anyhow::Result<()> {
    match *command {
        Command::Walk { from, to } => walk(out, heap, cast, from, to),
        Command::Lose { from, to } => {
            if let Some(letter) = or_refuse(out, cast.send(heap, from, to))? {
                let carried = Carried::Lost { letter, from, to };
                say(out, Answer::Letter { carried })?;
            }
            Ok(())
        }
        Command::Again { letter, to } => {
            let taken = cast.take(heap, letter, to);
            come(out, cast, taken, Carried::Again { letter, to })
        }
        Command::Cut { letter, to, bytes } => {
            let taken = cast.cut(heap, letter, to, bytes);
            come(out, cast, taken, Carried::Cut { letter, bytes, to })
        }
        Command::Stop { hut, bytes } => stop(out, heap, cast, hut, bytes),
        _ => Ok(()),
    }
}

fn walk(
    out: &mut impl Write,
    heap: Global,
    cast: &mut Cast,
    from: u64,
    to: u64,
) -> anyhow::Result<()> {
    if let Some(letter) = or_refuse(out, cast.send(heap, from, to))? {
        let taken = cast.take(heap, letter, to);
        come(out, cast, taken, Carried::Walked { letter, from, to })?;
    }
    Ok(())
}

// A letter has come, and what came of its entries is told.
fn come(
    out: &mut impl Write,
    cast: &Cast,
    taken: Result<(), Unplayed>,
    carried: Carried,
) -> anyhow::Result<()> {
    if or_refuse(out, taken)?.is_some() {
        say(out, Answer::Letter { carried })?;
        say_takings(out, cast.outcomes(), cast.rejected())?;
    }
    Ok(())
}

// A crash, and what is found when the hut is opened again.
fn stop(
    out: &mut impl Write,
    heap: Global,
    cast: &mut Cast,
    hut: u64,
    bytes: u64,
) -> anyhow::Result<()> {
    if let Some(cut) = or_refuse(out, cast.crash(heap, hut, bytes))? {
        if let Some(replica) = cast.replica(hut) {
            say(out, opened(replica, cut))?;
        }
    }
    Ok(())
}
