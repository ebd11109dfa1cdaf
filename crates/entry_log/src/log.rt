// A log with room for as many entries as a replica can have.
ghost use Rattle.std.specs.Prelude.{◌≡◌, ◌≤◌, true, map, drop, vec_len, vec_capacity};
ghost use Rattle.bookings.specs.Plain.{plain};
ghost use Rattle.bookings.specs.declared.book.TheConstants.{CAPACITY};
ghost use Rattle.entry_log.specs.Order.{ascends, Once};

use bookings::entry::Entry;

mod edits;
mod parts;
mod reads;

// The committed entries, of which there are so many, and then the tentative ones, in the order of their marks.
#[derive(Drop)]
pub struct Log {
    entries: Vec<Entry>,
    committed: usize,
    ghost within: { committed ≤ vec_len entries },
    ghost sorted: { ascends (drop committed (map plain entries.items)) ≡ true },
    ghost once: { Once (map plain entries.items) },
    ghost room: { (vec_len entries ≤ CAPACITY) × (CAPACITY ≤ vec_capacity entries) },
}
