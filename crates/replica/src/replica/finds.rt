// Which entries a replica knows.
ghost use Rattle.std.specs.Prelude.{◌≡◌};
ghost use Rattle.std.specs.Option.{option_map};
ghost use Rattle.bookings.specs.Books.{place_from};
ghost use Rattle.bookings.specs.Plain.{plain, plain_mark};
ghost use Rattle.entry_log.specs.Logs.{all_of, has, first_entry};
ghost use Rattle.replica.specs.Model.{marks_of};
ghost use Rattle.replica.specs.Views.{state_of};

use super::Replica;
use bookings::entry::{Entry, Mark};

impl Replica {
    // The place of the entry with a mark; a stamp above all of its hut's need not be looked for.
    pub fn find(&self, mark: &Mark) -> Option<usize>
        ensures { result ≡ place_from 0 (plain_mark mark.now) (marks_of (state_of self.now)) }
    {
        if !self.head.seen.reaches(mark) {
            return None;
        }
        self.book.find(mark)
    }

    // Whether an entry with a mark is in the log.
    pub fn knows(&self, mark: &Mark) -> bool
        ensures { result ≡ has (plain_mark mark.now) (all_of (state_of self.now).log) }
    {
        self.find(mark).is_some()
    }

    // Whether it is committed.
    pub fn has_committed(&self, mark: &Mark) -> bool
        ensures { result ≡ has (plain_mark mark.now) (state_of self.now).log.committed }
    {
        let committed = self.log.committed();
        self.find(mark).is_some_and(|place| place < committed)
    }

    // The entry that is committed next.
    pub fn first_tentative(&self) -> Option<Entry>
        ensures { option_map plain result ≡ first_entry (state_of self.now).log.tentative }
    {
        self.log.tentative_part().first().copied()
    }
}
