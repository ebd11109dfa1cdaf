// What a line asks for.
use crate::hex::Hex;
use crate::mark::RawMark;
use crate::numbers::Numbers;
use crate::request::Request;
use crate::vector::RawVector;
use crate::verb::Verb;

#[derive(Clone, Copy)]
pub enum Command {
    // An empty line, or a comment.
    Pass,
    // The huts of a rehearsal.
    Huts { huts: Numbers },
    // The lines that follow are for this hut.
    At { hut: u64 },
    // A new entry.
    Make { request: Request },
    // The first tentative entry is to be committed.
    Ink,
    // What a replica has.
    Have,
    // The book at one night, and all of it.
    ShowNight { hut: u64, night: u64 },
    Show,
    // The log.
    Line,
    // What an entry has got.
    Got { mark: RawMark },
    // A guest, with that slip.
    Serve { slip: RawVector },
    // A letter for a replica that has that many committed, and that vector.
    Letter { committed: u64, vector: RawVector },
    // A letter comes, as the digits of the line.
    Take,
    // A letter is carried, or lost on the way.
    Walk { from: u64, to: u64 },
    Lose { from: u64, to: u64 },
    // A letter that was written comes once more, or late; or only its first bytes come.
    Again { letter: u64, to: u64 },
    Cut { letter: u64, to: u64, bytes: u64 },
    // A crash: of what was not synced, so many bytes are kept.
    Stop { hut: u64, bytes: u64 },
    // How lines are written.
    Help,
}

// What was read of a line: what it asks for, and the letter that it brings, which has no digits but for `take`.
#[derive(Clone, Copy)]
pub struct Asked<'a> {
    pub command: Result<Command, Expected>,
    pub letter: Hex<'a>,
}

// What a line should have been.
// It is answered in a line, and no error of a program: so no `Error`.
#[derive(Clone, Copy)]
pub enum Expected {
    // Any command; any of a hut's.
    Command,
    HutCommand,
    Form { verb: Verb },
    // A letter in hexadecimal digits.
    Take,
    // The huts of a rehearsal are named before all else, and not again.
    HutsFirst,
    HutsOnce,
}
