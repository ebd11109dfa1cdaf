// Entries are put into a log.
ghost use Rattle.std.specs.Prelude.{◌≡◌, ℕ, ◌+◌, ◌<◌, ◌≤◌, Bool, true, false, map, length, IfOk, vec_len, MatchOption, slice_index_or};
ghost use Rattle.std.specs.Option.{option_map};
ghost use Rattle.bookings.specs.Books.{same_mark};
ghost use Rattle.bookings.specs.Plain.{PlainEntry, plain, plain_mark};
ghost use Rattle.entry_log.specs.Logs.{empty_log, all_of, has, spot, first_mark, commit_first, add_tentative, add_committed};
ghost use Rattle.entry_log.specs.Views.{log_in};

use super::Log;
use crate::order::{position_of, spot_of};
use crate::room::{insert_at, move_to};
use bookings::book::CAPACITY;
use bookings::entry::{Entry, Mark};
use std::alloc::{AllocError, Global};

impl Log {
    pub fn new(heap: Global) -> Result<Log, AllocError>
        ensures { IfOk result (λ l. log_in l ≡ empty_log) }
    {
        let entries = Vec::with_capacity(heap, CAPACITY)?;
        Ok(Log {
            entries,
            committed: 0,
        })
    }

    // No entry is left; its memory stays.
    pub fn clear(&mut self)
        ensures { log_in self.new ≡ empty_log }
    {
        self.entries.clear();
        self.committed = 0;
    }

    // The place for a tentative entry with a mark.
    fn place_for(&self, mark: &Mark) -> usize
        ensures value { result ≡ self.now.committed + spot (plain_mark mark.now) (log_in self.now).tentative }
        ensures within { result ≤ vec_len self.now.entries }
    {
        self.committed + spot_of(self.tentative_part(), mark)
    }

    // Puts a tentative entry where it belongs, and says at which place that is.
    pub fn insert(&mut self, entry: Entry) -> usize
        requires new { has (plain «entry»).mark (all_of (log_in self.old)) ≡ false }
        requires room { length (all_of (log_in self.old)) < CAPACITY }
        ensures log { log_in self.new ≡ add_tentative (plain «entry») (log_in self.old) }
        ensures place { result ≡ length (log_in self.old).committed + spot (plain «entry»).mark (log_in self.old).tentative }
    {
        let place = self.place_for(&entry.mark);
        insert_at(&mut self.entries, place, entry);
        place
    }

    // The first tentative entry becomes committed, where it stands; its mark, if there is one.
    pub fn commit_first(&mut self) -> Option<Mark>
        ensures log { log_in self.new ≡ commit_first (log_in self.old) }
        ensures mark { option_map plain_mark result ≡ first_mark (log_in self.old).tentative }
        ensures same { all_of (log_in self.new) ≡ all_of (log_in self.old) }
    {
        let mark = self.tentative_part().first()?.mark;
        self.committed += 1;
        Some(mark)
    }

    // Puts an entry that is tentative, at the place `last`, to the end of the committed ones.
    fn settle_known(&mut self, last: usize, entry: Entry)
        requires tentative { self.old.committed ≤ last }
        requires within { last < vec_len self.old.entries }
        requires there { (d : PlainEntry) → same_mark (plain «entry»).mark (slice_index_or (map plain self.old.entries.items) last d).mark ≡ true }
        requires new { has (plain «entry»).mark (log_in self.old).committed ≡ false }
        ensures { log_in self.new ≡ add_committed (plain «entry») (log_in self.old) }
    {
        move_to(self.entries.as_mut_slice(), self.committed, last, entry);
        self.committed += 1;
    }

    // Puts an entry that is not known to the end of the committed ones.
    fn settle_new(&mut self, entry: Entry)
        requires new { has (plain «entry»).mark (all_of (log_in self.old)) ≡ false }
        requires room { length (all_of (log_in self.old)) < CAPACITY }
        ensures { log_in self.new ≡ add_committed (plain «entry») (log_in self.old) }
    {
        insert_at(&mut self.entries, self.committed, entry);
        self.committed += 1;
    }

    // The place of a tentative entry with a mark.
    fn find_tentative(&self, mark: &Mark) -> Option<usize>
        ensures { MatchOption result (has (plain_mark mark.now) (log_in self.now).tentative ≡ false)
            (λ p. (self.now.committed ≤ p) × (p < vec_len self.now.entries)
            × ((d : PlainEntry) → same_mark (plain_mark mark.now) (slice_index_or (map plain self.now.entries.items) p d).mark ≡ true)) }
    {
        let place = position_of(self.tentative_part(), mark)?;
        Some(self.committed + place)
    }

    // Puts an entry to the end of the committed ones, and takes it from the tentative ones, if it is there.
    pub fn settle(&mut self, entry: Entry)
        requires new { has (plain «entry»).mark (log_in self.old).committed ≡ false }
        requires room { has (plain «entry»).mark (log_in self.old).tentative ≡ false → length (all_of (log_in self.old)) < CAPACITY }
        ensures { log_in self.new ≡ add_committed (plain «entry») (log_in self.old) }
    {
        match self.find_tentative(&entry.mark) {
            Some(last) => self.settle_known(last, entry),
            None => self.settle_new(entry),
        }
    }
}
