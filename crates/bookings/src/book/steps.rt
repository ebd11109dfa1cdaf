// Entries are done and undone.
ghost use Rattle.std.specs.Prelude.{◌≡◌, ℕ, ◌<◌, ◌≤◌, Bool, length, IfOk, MatchResult, nat_lt};
ghost use Rattle.bookings.specs.Books.{PlainBook, row, empty_book, does};
ghost use Rattle.bookings.specs.Plain.{PlainEntry, plain};
ghost use Rattle.bookings.specs.Ranges.{InRange};
ghost use Rattle.bookings.specs.Reached.{Reached};
ghost use Rattle.bookings.specs.Refusals.{number_of};
ghost use Rattle.bookings.specs.Views.{book_in};

use super::{Book, CAPACITY};
use crate::effects::carry_out;
use crate::entry::Entry;
use crate::limits::{INITIAL_BEDS, PLACES};
use crate::refusal::Refusal;
use crate::undo::take_back;
use std::alloc::{AllocError, Global};

// The same number for each hut and night.
fn row_of(heap: Global, n: u32) -> Result<Vec<u32>, AllocError>
    ensures { IfOk result (λ v. v.items ≡ row n) }
{
    vec![in heap; n; PLACES]
}

impl Book {
    // The book of no entry: `INITIAL_BEDS` in each hut on each night, none booked.
    pub fn new(heap: Global) -> Result<Book, AllocError>
        ensures { IfOk result (λ b. book_in b ≡ empty_book) }
    {
        let beds = row_of(heap, INITIAL_BEDS)?;
        let booked = row_of(heap, 0)?;
        let marks = Vec::with_capacity(heap, CAPACITY)?;
        let outcomes = Vec::with_capacity(heap, CAPACITY)?;
        Ok(Book {
            beds,
            booked,
            marks,
            outcomes,
        })
    }

    // Does an entry; refused where the book has as many as it can.
    pub fn apply(&mut self, entry: &Entry) -> Result<(), Refusal>
        ensures { MatchResult result
            (λ _. (length (book_in self.old).marks < CAPACITY) × (book_in self.new ≡ does (plain «entry».now) (book_in self.old)))
            (λ e. (number_of e ≡ 8) × (CAPACITY ≤ length (book_in self.old).marks) × (book_in self.new ≡ book_in self.old)) }
    {
        if self.marks.len() >= CAPACITY {
            return Err(Refusal::Full);
        }
        let own = carry_out(
            self.beds.as_mut_slice(),
            self.booked.as_mut_slice(),
            self.marks.as_slice(),
            self.outcomes.as_mut_slice(),
            entry,
        );
        self.marks.push_reserved(entry.mark);
        self.outcomes.push_reserved(own);
        Ok(())
    }

    // Undoes the entry that was done last, and says whether there was one.
    pub fn undo(&mut self) -> bool
        ensures test { result ≡ nat_lt 0 (length (book_in self.old).marks) }
        ensures none { length (book_in self.old).marks ≡ 0 → book_in self.new ≡ book_in self.old }
        ensures before { (e : PlainEntry) (b : PlainBook) → InRange e → Reached b → book_in self.old ≡ does e b → book_in self.new ≡ b }
    {
        let Some(last) = self.outcomes.pop() else {
            return false;
        };
        let _ = self.marks.pop();
        take_back(
            self.beds.as_mut_slice(),
            self.booked.as_mut_slice(),
            self.outcomes.as_mut_slice(),
            &last,
        );
        true
    }
}
