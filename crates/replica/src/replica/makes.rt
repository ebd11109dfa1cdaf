// A replica is made, and makes entries.
ghost use Rattle.std.specs.Prelude.{◌≡◌, ◌<◌, ◌≤◌, Bool, true, false, Some, None, MatchResult};
ghost use Rattle.bookings.specs.Books.{named_by};
ghost use Rattle.bookings.specs.Plain.{plain_mark, plain_kind};
ghost use Rattle.bookings.specs.Refusals.{number_of};
ghost use Rattle.bookings.specs.declared.limits.TheConstants.{HUTS};
ghost use Rattle.replica.specs.Model.{fresh, made, next_mark, make_refusal, names_unknown};
ghost use Rattle.replica.specs.Views.{state_of};
ghost use Rattle.replica.specs.declared.fault.Fault.TheVariants.{Memory, Refused};

use super::Replica;
use crate::fault::Fault;
use crate::head::Head;
use bookings::book::Book;
use bookings::entry::{Entry, Kind, Mark};
use bookings::refusal::Refusal;
use entry_log::log::Log;
use std::alloc::Global;

impl Replica {
    // A replica that has no entry, with room for all that it can ever have; its number is a hut's, else 2.
    pub fn new(heap: Global, hut: u8) -> Result<Replica, Fault>
        ensures { MatchResult result (λ p. (hut < HUTS) × (state_of p ≡ fresh hut))
            (λ e. elim e [ Memory ↦ Unit {0} | Refused w ↦ (number_of w ≡ 2) × (HUTS ≤ hut) ]) }
    {
        let head = Head::new(hut)?;
        let log = Log::new(heap)?;
        let book = Book::new(heap)?;
        Ok(Replica { head, log, book })
    }

    // Whether a kind names a mark that is not known.
    fn names_unknown(&self, kind: &Kind) -> bool
        ensures { result ≡ names_unknown (named_by (plain_kind kind.now)) (state_of self.now) }
    {
        kind.named().is_some_and(|mark| !self.knows(&mark))
    }

    // Makes an entry, which then stands last: refused where there is no room (8), or where it names a mark that is not known (9).
    pub fn make(&mut self, kind: Kind) -> Result<Mark, Refusal>
        ensures { MatchResult result
            (λ m. (make_refusal (plain_kind kind) (state_of self.old) ≡ None) × (plain_mark m ≡ next_mark (state_of self.old)) × (state_of self.new ≡ made (plain_kind kind) (state_of self.old)))
            (λ e. (make_refusal (plain_kind kind) (state_of self.old) ≡ Some (number_of e)) × (state_of self.new ≡ state_of self.old)) }
    {
        let mark = self.head.next_mark()?;
        if self.names_unknown(&kind) {
            return Err(Refusal::Unknown);
        }
        let entry = Entry { mark, kind };
        self.log.insert(entry);
        // `next_mark` found that there is room.
        let _ = self.book.apply(&entry);
        self.head = self.head.with(&mark);
        Ok(mark)
    }
}
