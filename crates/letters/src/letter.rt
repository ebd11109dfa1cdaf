// A letter that was opened: it is looked through once, and its entries are then read where they stand.
ghost use Rattle.std.specs.Prelude.{◌+◌, ◌^◌, ◌<◌};

use crate::reader::Reader;
use bookings::entry::Entry;
use entry_log::waiting::Waiting;

mod goes;
mod opens;

// Values that are not given out yet: how many, from where the reader stands.
#[derive(Drop)]
struct Unread<'a> {
    count: u16,
    reader: Reader<'a>,
}

// The committed entries that are not given out yet, the place of the first of them, and then the tentative ones; how many entries are kept out.
#[derive(Drop)]
pub struct Letter<'a> {
    place: u64,
    committed: Unread<'a>,
    tentative: Unread<'a>,
    out: u16,
    ghost places: { place + committed.count < 2 ^ 64 },
}

// An entry of a letter: a committed one at its place, or a tentative one with what stood before it.
#[derive(Clone, Copy)]
pub enum Item {
    Committed { place: u64, entry: Entry },
    Tentative(Waiting),
}
