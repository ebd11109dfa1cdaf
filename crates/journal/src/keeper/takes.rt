// Entries are taken from others: each record is written before the answer, and synced when something is shown or handed on.
ghost use Rattle.std.specs.Prelude.{◌≡◌, ◌<◌, ◌≤◌, Bool, true, false, IfErr, Some, None, MatchResult};
ghost use Rattle.bookings.specs.Plain.{plain};
ghost use Rattle.bookings.specs.Refusals.{number_of};
ghost use Rattle.replica.specs.Model.{take_tentative_refusal, take_committed_refusal};
ghost use Rattle.journal.specs.History.{Kept, takes_tentative, takes_committed};
ghost use Rattle.journal.specs.Keeping.{InStep, Moves, Fails, state_by, most_bytes};
ghost use Rattle.journal.specs.declared.trouble.Trouble.TheVariants.{Refused, Failed};

use super::Keeper;
use crate::journal::Journal;
use crate::record::Record;
use crate::trouble::Trouble;
use bookings::entry::Entry;
use entry_log::vector::Vector;

impl<J: Journal + Drop> Keeper<J> {
    // Takes another's tentative entry, with what stood before it, as its replica does.
    pub fn take_tentative(&mut self, entry: Entry, stood: &Vector) -> Result<(), Trouble>
        ensures answer { MatchResult result
            (λ _. take_tentative_refusal (plain «entry») stood.now.stamps (state_by self.old) ≡ None)
            (λ e. elim e [ Refused w ↦ take_tentative_refusal (plain «entry») stood.now.stamps (state_by self.old) ≡ Some (number_of w) | Failed f ↦ J.shut self.new.journal ≡ true ]) }
        ensures kept { MatchResult result
            (λ _. Moves J.keeps self.old self.new (takes_tentative (plain «entry») stood.now.stamps))
            (λ e. elim e [
              | Refused w ↦ Moves J.keeps self.old self.new (λ k. k)
              | Failed f ↦ Fails J.keeps J.finds self.old self.new (takes_tentative (plain «entry») stood.now.stamps)
            ]) }
        ensures room { J.room self.old.journal ≤ J.room self.new.journal }
        ensures sure { (k : Kept) → InStep J.keeps self.old k → most_bytes < J.room self.old.journal → IfErr result (λ e. elim e [ Refused w ↦ Unit {0} | Failed f ↦ ⊥ ]) }
    {
        // `take_committed` is alike, but a common function would be told both the call of the replica and the record.
        self.replica.take_tentative(entry, stood)?;
        self.append(&Record::Tentative(entry))?;
        Ok(())
    }

    // Takes a committed entry with its place, as its replica does.
    pub fn take_committed(&mut self, place: usize, entry: Entry) -> Result<(), Trouble>
        ensures answer { MatchResult result
            (λ _. take_committed_refusal place (plain «entry»).mark (state_by self.old) ≡ None)
            (λ e. elim e [ Refused w ↦ take_committed_refusal place (plain «entry»).mark (state_by self.old) ≡ Some (number_of w) | Failed f ↦ J.shut self.new.journal ≡ true ]) }
        ensures kept { MatchResult result
            (λ _. Moves J.keeps self.old self.new (takes_committed place (plain «entry»)))
            (λ e. elim e [
              | Refused w ↦ Moves J.keeps self.old self.new (λ k. k)
              | Failed f ↦ Fails J.keeps J.finds self.old self.new (takes_committed place (plain «entry»))
            ]) }
        ensures room { J.room self.old.journal ≤ J.room self.new.journal }
        ensures sure { (k : Kept) → InStep J.keeps self.old k → most_bytes < J.room self.old.journal → IfErr result (λ e. elim e [ Refused w ↦ Unit {0} | Failed f ↦ ⊥ ]) }
    {
        self.replica.take_committed(place, entry)?;
        self.append(&Record::Committed(entry))?;
        Ok(())
    }
}
