// What a book is asked.
ghost use Rattle.std.specs.Prelude.{◌≡◌, ◌<◌, ◌≤◌, length, MatchOption, MatchResult, slice_index, slice_index_or};
ghost use Rattle.bookings.specs.Books.{place_from};
ghost use Rattle.bookings.specs.Nights.{place_of};
ghost use Rattle.bookings.specs.Outcomes.{nothing, plain_outcome};
ghost use Rattle.bookings.specs.Plain.{plain_mark};
ghost use Rattle.bookings.specs.Refusals.{number_of};
ghost use Rattle.bookings.specs.Views.{book_in};

use super::{Book, Night};
use crate::entry::Mark;
use crate::limits::{HUTS, NIGHTS};
use crate::outcome::Outcome;
use crate::refusal::Refusal;
use crate::standing::place_of;

impl Book {
    // How many entries were done.
    pub fn len(&self) -> usize
        ensures { result ≡ length (book_in self.now).marks }
    {
        self.marks.len()
    }

    // The place of the entry with a mark.
    pub fn find(&self, mark: &Mark) -> Option<usize>
        ensures { result ≡ place_from 0 (plain_mark mark.now) (book_in self.now).marks }
    {
        place_of(self.marks.as_slice(), mark)
    }

    // What came of the entry at a place.
    pub fn outcome(&self, place: usize) -> Option<Outcome>
        ensures { MatchOption result (length (book_in self.now).outcomes ≤ place)
            (λ o. (place < length (book_in self.now).outcomes) × (plain_outcome o ≡ slice_index_or (book_in self.now).outcomes place nothing)) }
    {
        self.outcomes.get(place).copied()
    }

    // A hut's beds on a night.
    pub fn night(&self, hut: u64, night: u64) -> Result<Night, Refusal>
        ensures { MatchResult result
            (λ n. (hut < HUTS) × (night < NIGHTS) × (n.beds ≡ slice_index (book_in self.now).beds (place_of hut night)) × (n.booked ≡ slice_index (book_in self.now).booked (place_of hut night)))
            (λ e. (number_of e ≡ 2) × ((hut < HUTS) × (night < NIGHTS) → ⊥)) }
    {
        if hut >= HUTS as u64 || night >= NIGHTS as u64 {
            return Err(Refusal::OutOfRange);
        }
        // `as`, since no `From` goes from `u64` to `usize`; both are small by the test.
        let place = hut as usize * NIGHTS + night as usize;
        Ok(Night {
            beds: self.beds[place],
            booked: self.booked[place],
        })
    }
}
