// What a program answers: one line each.
use self::letters::{Carried, Taking};
use self::starts::{Opened, Usage};
use crate::command::Expected;
use crate::mark::RawMark;
use bookings::refusal::Refusal;
use entry_log::vector::Vector;

mod kinds;
pub mod letter;
pub mod letters;
mod outcomes;
mod shows;
pub mod starts;

#[derive(Clone, Copy)]
pub enum Answer {
    // An entry was made, with that mark.
    Made {
        mark: RawMark,
    },
    Refused {
        why: Refusal,
    },
    // The entry with that mark was committed, and stands at that place.
    Inked {
        mark: RawMark,
        place: usize,
    },
    NothingTentative,
    // How many entries are committed, and the highest stamp of each hut.
    Have {
        committed: usize,
        vector: Vector,
    },
    // The beds of a hut on a night, and how many are booked.
    Night {
        hut: u8,
        night: u16,
        beds: u32,
        booked: u32,
    },
    EndOfBook,
    // An entry of the log.
    Logged {
        place: usize,
        mark: RawMark,
        standing: Standing,
        kind: KindName,
    },
    EndOfLog,
    // What the entry with that mark has got.
    Got {
        mark: RawMark,
        standing: Standing,
        got: Got,
    },
    // A guest was served, who has that slip now.
    Served {
        slip: Vector,
    },
    // A letter was written, and came or was lost.
    Letter {
        carried: Carried,
    },
    // What comes of a letter that is taken, a line for each entry, and the counts.
    Take {
        taking: Taking,
    },
    // A replica was opened.
    Opened {
        opened: Opened,
    },
    // How lines are written.
    Usage {
        usage: Usage,
    },
    Error {
        expected: Expected,
    },
}

#[derive(Clone, Copy)]
pub enum Standing {
    Tentative,
    Committed,
}

#[derive(Clone, Copy)]
pub enum KindName {
    Book,
    Cancel,
    Change,
    Beds,
}

#[derive(Clone, Copy)]
pub enum Got {
    // A choice, counted from 1, with its first and its last night.
    Choice {
        number: u16,
        hut: u8,
        first: u16,
        last: u16,
        beds: u8,
    },
    Nothing,
    Cancelled,
    ChangedBy {
        mark: RawMark,
    },
    NotABooking,
}
