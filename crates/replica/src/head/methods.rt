// A head with an entry more.
ghost use Rattle.std.specs.Prelude.{◌≡◌, ◌+◌, ◌<◌, ◌≤◌, max, true, false, ◌||◌, MatchResult, nat_le};
ghost use Rattle.bookings.specs.Plain.{plain_mark};
ghost use Rattle.bookings.specs.Refusals.{number_of};
ghost use Rattle.entry_log.specs.Vectors.{no_stamps, noted};

use super::{Head, LAST_STAMP};
use bookings::book::CAPACITY;
use bookings::entry::Mark;
use bookings::limits::HUTS;
use bookings::refusal::Refusal;
use entry_log::vector::Vector;

impl Head {
    // The head of a replica that has no entry.
    pub(crate) fn empty(hut: u8) -> Head
        requires { hut < HUTS }
        ensures hut { result.hut ≡ hut }
        ensures entries { result.entries ≡ 0 }
        ensures top { result.top ≡ 0 }
        ensures seen { result.seen.stamps ≡ no_stamps }
    {
        Head {
            hut,
            entries: 0,
            top: 0,
            seen: Vector::zero(),
        }
    }

    // The same of a number that may be no hut's: then 2.
    pub fn new(hut: u8) -> Result<Head, Refusal>
        ensures { MatchResult result
            (λ h. (h.hut ≡ hut) × (h.entries ≡ 0) × (h.top ≡ 0) × (h.seen.stamps ≡ no_stamps))
            (λ e. (number_of e ≡ 2) × (HUTS ≤ hut)) }
    {
        if usize::from(hut) >= HUTS {
            return Err(Refusal::OutOfRange);
        }
        Ok(Head::empty(hut))
    }

    // The head with the entry of a mark more.
    pub fn with(self, mark: &Mark) -> Head
        requires { self.entries < CAPACITY }
        ensures hut { result.hut ≡ self.hut }
        ensures entries { result.entries ≡ self.entries + 1 }
        ensures top { result.top ≡ max mark.now.stamp self.top }
        ensures seen { result.seen.stamps ≡ noted (plain_mark mark.now) self.seen.stamps }
    {
        let mut seen = self.seen;
        seen.note(mark);
        Head {
            hut: self.hut,
            entries: self.entries + 1,
            top: mark.stamp.max(self.top),
            seen,
        }
    }

    // The mark of the next entry of its own, one stamp above the highest.
    pub fn next_mark(self) -> Result<Mark, Refusal>
        ensures { MatchResult result
            (λ m. ((nat_le CAPACITY self.entries || nat_le LAST_STAMP (self.top + 1)) ≡ false) × (plain_mark m ≡ record { stamp = self.top + 1; hut = self.hut }))
            (λ e. ((nat_le CAPACITY self.entries || nat_le LAST_STAMP (self.top + 1)) ≡ true) × (number_of e ≡ 8)) }
    {
        if self.entries >= CAPACITY || self.top >= LAST_STAMP - 1 {
            return Err(Refusal::Full);
        }
        Ok(Mark {
            stamp: self.top + 1,
            hut: self.hut,
        })
    }
}
