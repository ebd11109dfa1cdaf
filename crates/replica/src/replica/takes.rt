// Entries are committed, and taken from others.
ghost use Rattle.std.specs.Prelude.{◌≡◌, ◌<◌, true, false, not, length, Some, None, MatchResult};
ghost use Rattle.std.specs.Option.{option_map};
ghost use Rattle.bookings.specs.Plain.{plain, plain_mark};
ghost use Rattle.bookings.specs.Refusals.{number_of};
ghost use Rattle.entry_log.specs.Logs.{all_of, first_mark, has};
ghost use Rattle.replica.specs.Model.{commits, is_primary, with_tentative, with_committed, take_tentative_refusal, take_committed_refusal, no_room};
ghost use Rattle.replica.specs.Views.{state_of};

use super::Replica;
use crate::head::LAST_STAMP;
use crate::redo::redo_log;
use bookings::book::CAPACITY;
use bookings::entry::{Entry, Mark};
use bookings::refusal::Refusal;
use entry_log::vector::Vector;

impl Replica {
    // Whether it is the one that commits.
    fn leads(&self) -> bool
        ensures { result ≡ is_primary (state_of self.now) }
    {
        self.head.hut == 0
    }

    // Commits the first tentative entry, if there is one, and gives its mark; hut 0 alone commits, else 6.
    pub fn commit(&mut self) -> Result<Option<Mark>, Refusal>
        ensures { MatchResult result
            (λ m. (is_primary (state_of self.old) ≡ true) × (option_map plain_mark m ≡ first_mark (state_of self.old).log.tentative) × (state_of self.new ≡ commits (state_of self.old)))
            (λ e. (is_primary (state_of self.old) ≡ false) × (number_of e ≡ 6) × (state_of self.new ≡ state_of self.old)) }
    {
        if !self.leads() {
            return Err(Refusal::NotPrimary);
        }
        Ok(self.log.commit_first())
    }

    // Whether there is no room for an entry with that stamp.
    fn has_no_room(&self, stamp: u32) -> bool
        ensures { result ≡ no_room (state_of self.now) stamp }
    {
        self.head.entries >= CAPACITY || stamp >= LAST_STAMP
    }

    // Takes another's tentative entry, with what stood before it: refused where it is known (3), where what stood before is not (5), and where there is no room (8).
    pub fn take_tentative(&mut self, entry: Entry, stood: &Vector) -> Result<(), Refusal>
        ensures { MatchResult result
            (λ _. (take_tentative_refusal (plain «entry») stood.now.stamps (state_of self.old) ≡ None) × (state_of self.new ≡ with_tentative (plain «entry») (state_of self.old)))
            (λ e. (take_tentative_refusal (plain «entry») stood.now.stamps (state_of self.old) ≡ Some (number_of e)) × (state_of self.new ≡ state_of self.old)) }
    {
        if self.knows(&entry.mark) {
            return Err(Refusal::Known);
        }
        if !self.head.seen.covers(stood) {
            return Err(Refusal::Gap);
        }
        if self.has_no_room(entry.mark.stamp) {
            return Err(Refusal::Full);
        }
        let place = self.log.insert(entry);
        redo_log(&mut self.book, self.log.as_slice(), place);
        self.head = self.head.with(&entry.mark);
        Ok(())
    }

    // Puts an entry that is tentative to the end of the committed ones.
    fn settle_known(&mut self, entry: Entry)
        requires new { has (plain «entry»).mark (state_of self.old).log.committed ≡ false }
        requires known { has (plain «entry»).mark (state_of self.old).log.tentative ≡ true }
        ensures { state_of self.new ≡ with_committed (plain «entry») (state_of self.old) }
    {
        let place = self.log.committed();
        self.log.settle(entry);
        redo_log(&mut self.book, self.log.as_slice(), place);
    }

    // Puts an entry that is not known to the end of the committed ones.
    fn settle_new(&mut self, entry: Entry)
        requires new { has (plain «entry»).mark (all_of (state_of self.old).log) ≡ false }
        requires room { length (all_of (state_of self.old).log) < CAPACITY }
        ensures { state_of self.new ≡ with_committed (plain «entry») (state_of self.old) }
    {
        let place = self.log.committed();
        self.log.settle(entry);
        redo_log(&mut self.book, self.log.as_slice(), place);
        self.head = self.head.with(&entry.mark);
    }

    // Takes a committed entry with its place: refused where it is committed (3), where the place is not the next (4), and where there is no room for one that is not known (8).
    pub fn take_committed(&mut self, place: usize, entry: Entry) -> Result<(), Refusal>
        ensures { MatchResult result
            (λ _. (take_committed_refusal place (plain «entry»).mark (state_of self.old) ≡ None) × (state_of self.new ≡ with_committed (plain «entry») (state_of self.old)))
            (λ e. (take_committed_refusal place (plain «entry»).mark (state_of self.old) ≡ Some (number_of e)) × (state_of self.new ≡ state_of self.old)) }
    {
        // Where entries come in the order in which they stand, no mark is looked for.
        if place == self.log.committed() && self.log.is_next(&entry) {
            self.log.commit_first();
            return Ok(());
        }
        if self.has_committed(&entry.mark) {
            return Err(Refusal::Known);
        }
        if place != self.log.committed() {
            return Err(Refusal::NotNext);
        }
        if self.knows(&entry.mark) {
            self.settle_known(entry);
            return Ok(());
        }
        if self.has_no_room(entry.mark.stamp) {
            return Err(Refusal::Full);
        }
        self.settle_new(entry);
        Ok(())
    }
}
