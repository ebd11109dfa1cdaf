// What befalls letters, and the entries in them.
use crate::mark::RawMark;
use bookings::refusal::Refusal;

mod shows;

// A letter by its number, counted from 1.
#[derive(Clone, Copy)]
pub enum Carried {
    Walked { letter: u64, from: u64, to: u64 },
    Lost { letter: u64, from: u64, to: u64 },
    // It came once more, or late.
    Again { letter: u64, to: u64 },
    // Only its first bytes came.
    Cut { letter: u64, bytes: u64, to: u64 },
}

#[derive(Clone, Copy)]
pub enum Taking {
    // The entry with that mark is taken.
    Committed {
        mark: RawMark,
        place: usize,
    },
    Tentative {
        mark: RawMark,
    },
    // It is skipped, by that refusal.
    Skipped {
        why: Refusal,
        mark: RawMark,
    },
    // The letter is rejected, or from this entry on.
    Rejected {
        why: Refusal,
    },
    // How many entries were taken, skipped and rejected.
    Counts {
        taken: usize,
        skipped: usize,
        rejected: usize,
    },
}
