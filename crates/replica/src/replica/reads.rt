// What a replica is asked.
ghost use Rattle.std.specs.Prelude.{◌≡◌, ℕ, ◌<◌, ◌≤◌, true, false, map, length, Some, None, MatchResult, nat_lt, slice_index, slice_index_or};
ghost use Rattle.bookings.specs.Books.{book_of, place_from};
ghost use Rattle.bookings.specs.Nights.{place_of};
ghost use Rattle.bookings.specs.Outcomes.{nothing, plain_outcome};
ghost use Rattle.bookings.specs.Plain.{plain, plain_mark};
ghost use Rattle.bookings.specs.Refusals.{number_of};
ghost use Rattle.bookings.specs.declared.limits.TheConstants.{HUTS, NIGHTS};
ghost use Rattle.entry_log.specs.Logs.{all_of};
ghost use Rattle.entry_log.specs.Vectors.{vector_of};
ghost use Rattle.entry_log.specs.Order.{Once};
ghost use Rattle.replica.specs.Laws.{Sorted};
ghost use Rattle.replica.specs.Model.{marks_of, serves, slip_after};
ghost use Rattle.replica.specs.Views.{state_of};

use super::Replica;
use crate::summary::Summary;
use bookings::book::Night;
use bookings::entry::{Entry, Mark};
use bookings::outcome::Outcome;
use bookings::refusal::Refusal;
use entry_log::vector::Vector;

// What came of an entry, and whether it is committed. Each has its value whatever the other is, so the flag is no case of an enum.
#[derive(Clone, Copy)]
pub struct Told {
    pub committed: bool,
    pub outcome: Outcome,
}

impl Replica {
    pub fn hut(&self) -> u8
        ensures { result ≡ (state_of self.now).hut }
    {
        self.head.hut
    }

    // How many entries are committed.
    pub fn committed(&self) -> usize
        ensures { result ≡ length (state_of self.now).log.committed }
    {
        self.log.committed()
    }

    // The log, the committed entries first; always the tentative ones are sorted, and each mark stands once.
    pub fn entries(&self) -> &[Entry]
        ensures log { map plain result.now ≡ all_of (state_of self.now).log }
        ensures sorted { Sorted (state_of self.now).log.tentative }
        ensures once { Once (all_of (state_of self.now).log) }
    {
        self.log.as_slice()
    }

    // A hut's beds on a night, in the book that the log makes.
    pub fn night(&self, hut: u64, night: u64) -> Result<Night, Refusal>
        ensures { MatchResult result
            (λ n. (hut < HUTS) × (night < NIGHTS)
            × (n.beds ≡ slice_index (book_of (all_of (state_of self.now).log)).beds (place_of hut night))
            × (n.booked ≡ slice_index (book_of (all_of (state_of self.now).log)).booked (place_of hut night)))
            (λ e. (number_of e ≡ 2) × ((hut < HUTS) × (night < NIGHTS) → ⊥)) }
    {
        self.book.night(hut, night)
    }

    // What the entry with a mark has got; refused where it is not known (9).
    pub fn got(&self, mark: &Mark) -> Result<Told, Refusal>
        ensures { MatchResult result
            (λ t. ((p : ℕ) × (place_from 0 (plain_mark mark.now) (marks_of (state_of self.now)) ≡ Some p)
            × (t.committed ≡ nat_lt p (length (state_of self.now).log.committed))
            × (plain_outcome t.outcome ≡ slice_index_or (book_of (all_of (state_of self.now).log)).outcomes p nothing)))
            (λ e. (number_of e ≡ 9) × (place_from 0 (plain_mark mark.now) (marks_of (state_of self.now)) ≡ None)) }
    {
        let place = self.book.find(mark).ok_or(Refusal::Unknown)?;
        let outcome = self.book.outcome(place).ok_or(Refusal::Unknown)?;
        Ok(Told {
            committed: place < self.committed(),
            outcome,
        })
    }

    // What the replica has, as it tells others.
    pub fn summary(&self) -> Summary
        ensures committed { result.committed ≡ length (state_of self.now).log.committed }
        ensures vector { result.vector.stamps ≡ vector_of (all_of (state_of self.now).log) }
    {
        Summary {
            committed: self.committed(),
            vector: self.head.seen,
        }
    }

    // Serves a guest with a slip, and gives the slip with all that the replica knows; refused where the slip knows more (7).
    pub fn serve(&self, slip: Vector) -> Result<Vector, Refusal>
        ensures { MatchResult result
            (λ v. (serves slip.stamps (state_of self.now) ≡ true) × (v.stamps ≡ slip_after slip.stamps (state_of self.now)))
            (λ e. (serves slip.stamps (state_of self.now) ≡ false) × (number_of e ≡ 7)) }
    {
        if !self.head.seen.covers(&slip) {
            return Err(Refusal::SlipAhead);
        }
        let mut after = slip;
        after.join(&self.head.seen);
        Ok(after)
    }
}
