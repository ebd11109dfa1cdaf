// A book that entries made, with room for as many as a replica can have.
ghost use Rattle.std.specs.Prelude.{◌≤◌, map, vec_capacity};
ghost use Rattle.bookings.specs.Outcomes.{plain_outcome};
ghost use Rattle.bookings.specs.Plain.{plain_mark};
ghost use Rattle.bookings.specs.Reached.{Reached};
ghost use Rattle.bookings.specs.declared.book.TheConstants.{CAPACITY};

use crate::entry::Mark;
use crate::outcome::Outcome;

mod reads;
mod steps;

/// How many entries a replica can have.
pub const CAPACITY: usize = 65536;

// Beds and booked for each hut and night, and for each entry in the order of doing its mark and what came of it.
// Lists side by side, since each is lent alone, and a mark is then looked for among 8 bytes each, and not among marks with outcomes.
#[derive(Drop)]
pub struct Book {
    beds: Vec<u32>,
    booked: Vec<u32>,
    marks: Vec<Mark>,
    outcomes: Vec<Outcome>,
    ghost reached: { Reached (record { beds = beds.items; booked = booked.items; marks = map plain_mark marks.items; outcomes = map plain_outcome outcomes.items }) },
    ghost room: { (CAPACITY ≤ vec_capacity marks) × (CAPACITY ≤ vec_capacity outcomes) },
}

// How many beds a hut has on a night, and how many of them are booked.
#[derive(Clone, Copy, PartialEq, Eq)]
pub struct Night {
    pub beds: u32,
    pub booked: u32,
}
