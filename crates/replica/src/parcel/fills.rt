// A parcel is made, filled and read.
ghost use Rattle.std.specs.Prelude.{◌≡◌, ◌-◌, ◌<◌, ◌≤◌, [], ◌++◌, map, length, take, drop, IfOk, vec_len, vec_capacity};
ghost use Rattle.bookings.specs.Plain.{plain};
ghost use Rattle.entry_log.specs.Vectors.{vector_of};
ghost use Rattle.replica.specs.Parcels.{missing, offered, parcel_of};
ghost use Rattle.entry_log.specs.Waits.{plain_waiting};
ghost use Rattle.replica.specs.Waits.{parcel_in};

use super::Parcel;
use bookings::entry::Entry;
use entry_log::vector::Vector;
use entry_log::waiting::{MAX_LETTER_ENTRIES, Waiting};
use std::alloc::{AllocError, Global};

// The vector of some entries.
fn vector_of(entries: &[Entry]) -> Vector
    ensures { result.stamps ≡ vector_of (map plain entries.now) }
{
    let mut vector = Vector::zero();
    for entry in entries {
        vector.note(&entry.mark);
    }
    vector
}

// The committed entries from a place on, as many as a parcel holds.
fn gather_committed(entries: &[Entry], from: usize, out: &mut Vec<Entry>)
    requires empty { out.old.items ≡ [] }
    requires room { MAX_LETTER_ENTRIES ≤ vec_capacity out.old }
    ensures items { out.new.items ≡ take MAX_LETTER_ENTRIES (drop from entries.now) }
    ensures capacity { vec_capacity out.old ≤ vec_capacity out.new }
{
    let start = from.min(entries.len());
    let end = start + MAX_LETTER_ENTRIES.min(entries.len() - start);
    // There is room for a parcel's entries, so no memory is asked for.
    let _ = out.extend_from_slice(&entries[start..end]);
}

// An entry that a vector does not reach, where there is room for it.
fn offer(entry: &Entry, stood: Vector, has: &Vector, room: usize, out: &mut Vec<Waiting>)
    requires { room ≤ vec_capacity out.old }
    ensures items { map plain_waiting out.new.items ≡ offered has.now.stamps room (plain «entry».now) stood.stamps (map plain_waiting out.old.items) }
    ensures capacity { vec_capacity out.new ≡ vec_capacity out.old }
{
    if out.len() >= room {
        return;
    }
    if has.reaches(&entry.mark) {
        return;
    }
    out.push_reserved(Waiting {
        entry: *entry,
        stood,
    });
}

// Of the entries that stand behind others, those that a vector does not reach, with what stood before each, as many as there is room for.
fn gather_tentative(
    before: &[Entry],
    entries: &[Entry],
    has: &Vector,
    room: usize,
    out: &mut Vec<Waiting>,
)
    requires empty { out.old.items ≡ [] }
    requires room { room ≤ vec_capacity out.old }
    ensures items { map plain_waiting out.new.items ≡ take room (missing has.now.stamps (map plain before.now) (map plain entries.now)) }
    ensures capacity { vec_capacity out.new ≡ vec_capacity out.old }
{
    // Without room the vector is not needed, and it costs a pass over all that stand before.
    if room == 0 {
        return;
    }
    let mut stood = vector_of(before);
    for entry in entries {
        if out.len() >= room {
            return;
        }
        offer(entry, stood, has, room, out);
        stood.note(&entry.mark);
    }
}

impl Parcel {
    pub fn new(heap: Global) -> Result<Parcel, AllocError>
        ensures { IfOk result (λ p. parcel_in p ≡ record { committed = []; tentative = [] }) }
    {
        let committed = Vec::with_capacity(heap, MAX_LETTER_ENTRIES)?;
        let tentative = Vec::with_capacity(heap, MAX_LETTER_ENTRIES)?;
        Ok(Parcel {
            committed,
            tentative,
        })
    }

    // Fills the parcel anew: of committed entries those from a place on, of tentative ones those that a vector does not reach.
    pub fn fill(&mut self, committed: &[Entry], tentative: &[Entry], from: usize, has: &Vector)
        ensures { parcel_in self.new ≡ parcel_of from has.now.stamps (map plain committed.now) (map plain tentative.now) }
    {
        self.committed.clear();
        self.tentative.clear();
        gather_committed(committed, from, &mut self.committed);
        let room = MAX_LETTER_ENTRIES - self.committed.len();
        gather_tentative(committed, tentative, has, room, &mut self.tentative);
    }

    pub fn committed(&self) -> &[Entry]
        ensures { map plain result.now ≡ (parcel_in self.now).committed }
    {
        self.committed.as_slice()
    }

    pub fn tentative(&self) -> &[Waiting]
        ensures { map plain_waiting result.now ≡ (parcel_in self.now).tentative }
    {
        self.tentative.as_slice()
    }
}
