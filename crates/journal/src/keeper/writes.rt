// Entries are made and committed: each record is written and synced before the answer.
ghost use Rattle.std.specs.Prelude.{◌≡◌, ℕ, ◌+◌, ◌<◌, ◌≤◌, Bool, true, false, not, List, ◌++◌, length, is_ok, IfErr, Some, None, MatchOption, MatchResult};
ghost use Rattle.std.specs.Option.{option_map};
ghost use Rattle.bookings.specs.Plain.{plain_kind, plain_mark};
ghost use Rattle.bookings.specs.Refusals.{number_of};
ghost use Rattle.letters.specs.Laws.{EntryOk};
ghost use Rattle.entry_log.specs.Logs.{first_mark};
ghost use Rattle.replica.specs.Model.{make_refusal, next_mark, is_primary};
ghost use Rattle.journal.specs.Finding.{OnlyFinds};
ghost use Rattle.journal.specs.History.{Kept, synced, makes, commits};
ghost use Rattle.journal.specs.Keeping.{InStep, Moves, Fails, state_by, most_bytes};
ghost use Rattle.journal.specs.Records.{encode_record, entry_of};
ghost use Rattle.journal.specs.Views.{plain_record};
ghost use Rattle.journal.specs.declared.trouble.Trouble.TheVariants.{Refused, Failed};

use super::Keeper;
use crate::fault::Fault;
use crate::journal::Journal;
use crate::record::Record;
use crate::trouble::Trouble;
use bookings::entry::{Entry, Kind, Mark};

impl<J: Journal + Drop> Keeper<J> {
    // Writes a record behind the others.
    pub(crate) fn append(&mut self, record: &Record) -> Result<(), Fault>
        ensures keeps { (bs : List ℕ) (n : ℕ) → is_ok result ≡ true → J.keeps self.old.journal bs n → J.keeps self.new.journal (bs ++ encode_record (plain_record «record».now)) n }
        ensures finds { (bs : List ℕ) (n : ℕ) → is_ok result ≡ false → J.keeps self.old.journal bs n → OnlyFinds (J.finds self.new.journal) (bs ++ encode_record (plain_record «record».now)) n }
        ensures room { J.room self.old.journal ≤ J.room self.new.journal }
        ensures sure { (bs : List ℕ) (n : ℕ) → J.keeps self.old.journal bs n → length bs + length (encode_record (plain_record «record».now)) < J.room self.old.journal → is_ok result ≡ true }
        ensures shut { (J.shut self.new.journal ≡ not (is_ok result)) × (J.shut self.old.journal ≡ true → is_ok result ≡ false) }
        ensures fits { EntryOk (entry_of (plain_record «record».now)) }
        ensures replica { self.new.replica ≡ self.old.replica }
    {
        self.line.clear();
        record.write(&mut self.line);
        self.journal.append(self.line.as_slice())
    }

    // Writes a record, and syncs it.
    fn append_synced(&mut self, record: &Record) -> Result<(), Fault>
        ensures keeps { (bs : List ℕ) (n : ℕ) → is_ok result ≡ true → J.keeps self.old.journal bs n → J.keeps self.new.journal (bs ++ encode_record (plain_record «record».now)) (length (bs ++ encode_record (plain_record «record».now))) }
        ensures finds { (bs : List ℕ) (n : ℕ) → is_ok result ≡ false → J.keeps self.old.journal bs n → OnlyFinds (J.finds self.new.journal) (bs ++ encode_record (plain_record «record».now)) n }
        ensures room { J.room self.old.journal ≤ J.room self.new.journal }
        ensures sure { (bs : List ℕ) (n : ℕ) → J.keeps self.old.journal bs n → length bs + length (encode_record (plain_record «record».now)) < J.room self.old.journal → is_ok result ≡ true }
        ensures shut { (J.shut self.new.journal ≡ not (is_ok result)) × (J.shut self.old.journal ≡ true → is_ok result ≡ false) }
        ensures fits { EntryOk (entry_of (plain_record «record».now)) }
        ensures replica { self.new.replica ≡ self.old.replica }
    {
        self.append(record)?;
        self.journal.sync()?;
        Ok(())
    }

    // Makes an entry, as its replica does; the mark is told when the entry is synced.
    pub fn make(&mut self, kind: Kind) -> Result<Mark, Trouble>
        ensures answer { MatchResult result
            (λ m. (make_refusal (plain_kind kind) (state_by self.old) ≡ None) × (plain_mark m ≡ next_mark (state_by self.old)))
            (λ e. elim e [ Refused w ↦ make_refusal (plain_kind kind) (state_by self.old) ≡ Some (number_of w) | Failed f ↦ J.shut self.new.journal ≡ true ]) }
        ensures kept { MatchResult result
            (λ _. Moves J.keeps self.old self.new (λ k. synced (makes (plain_kind kind) k)))
            (λ e. elim e [
              | Refused w ↦ Moves J.keeps self.old self.new (λ k. k)
              | Failed f ↦ Fails J.keeps J.finds self.old self.new (makes (plain_kind kind))
            ]) }
        ensures room { J.room self.old.journal ≤ J.room self.new.journal }
        ensures sure { (k : Kept) → InStep J.keeps self.old k → most_bytes < J.room self.old.journal → IfErr result (λ e. elim e [ Refused w ↦ Unit {0} | Failed f ↦ ⊥ ]) }
    {
        // `commit` ends alike, but a common function would be told both the call of the replica and the record.
        let mark = self.replica.make(kind)?;
        self.append_synced(&Record::Tentative(Entry { mark, kind }))?;
        Ok(mark)
    }

    // Commits the first tentative entry, if there is one, as its replica does; the mark is told when that is synced.
    pub fn commit(&mut self) -> Result<Option<Mark>, Trouble>
        ensures answer { MatchResult result
            (λ m. (is_primary (state_by self.old) ≡ true) × (option_map plain_mark m ≡ first_mark (state_by self.old).log.tentative))
            (λ e. elim e [ Refused w ↦ (is_primary (state_by self.old) ≡ false) × (number_of w ≡ 6) | Failed f ↦ J.shut self.new.journal ≡ true ]) }
        ensures kept { MatchResult result
            (λ m. MatchOption m
            (Moves J.keeps self.old self.new commits)
            (λ _. Moves J.keeps self.old self.new (λ k. synced (commits k))))
            (λ e. elim e [
              | Refused w ↦ Moves J.keeps self.old self.new (λ k. k)
              | Failed f ↦ Fails J.keeps J.finds self.old self.new commits
            ]) }
        ensures room { J.room self.old.journal ≤ J.room self.new.journal }
        ensures sure { (k : Kept) → InStep J.keeps self.old k → most_bytes < J.room self.old.journal → IfErr result (λ e. elim e [ Refused w ↦ Unit {0} | Failed f ↦ ⊥ ]) }
    {
        let next = self.replica.first_tentative();
        self.replica.commit()?;
        let Some(entry) = next else {
            return Ok(None);
        };
        self.append_synced(&Record::Committed(entry))?;
        Ok(Some(entry.mark))
    }
}
