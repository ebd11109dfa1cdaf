// A replica over its journal, with all that its lines need.
ghost use Rattle.std.specs.Prelude.{◌≡◌, ◌-◌, ◌<◌, ◌≤◌, ℕ, true, false, [], length, Some, IfOk, MatchOption, MatchResult, OnOk};
ghost use Rattle.std.specs.Option.{option_map};
ghost use Rattle.bookings.specs.Plain.{plain_kind, plain_mark};
ghost use Rattle.bookings.specs.Refusals.{number_of};
ghost use Rattle.bookings.specs.declared.limits.TheConstants.{HUTS};
ghost use Rattle.desk.specs.Composed.{LedOn};
ghost use Rattle.desk.specs.Failures.{Undone, Unwritten};
ghost use Rattle.desk.specs.Steps.{Leaves, Rests};
ghost use Rattle.entry_log.specs.Logs.{first_mark};
ghost use Rattle.journal.specs.Finding.{FindsOf, FoundOf};
ghost use Rattle.journal.specs.History.{Kept, synced, makes, commits};
ghost use Rattle.journal.specs.Keeping.{InStep, Moves, state_by};
ghost use Rattle.journal.specs.Phases.{is_synced, is_shut};
ghost use Rattle.journal.specs.Records.{bytes_of, history_in};
ghost use Rattle.journal.specs.declared.opened.NotOpened.TheVariants.{Memory as NoMemory, Refused as NoHut, Failed as Broken};
ghost use Rattle.letters.specs.Laws.{LetterOk};
ghost use Rattle.letters.specs.Letters.{encode_letter, read_letter};
ghost use Rattle.network.specs.declared.unplayed.Unplayed.TheVariants.{Memory, Refused, Failed};
ghost use Rattle.network.specs.Effects.{commits_synced};
ghost use Rattle.network.specs.Mail.{Mail, Runs, keeping, reopened};
ghost use Rattle.network.specs.Taking.{Reports, letter_for, take_bytes};
ghost use Rattle.replica.specs.Model.{make_refusal, next_mark, is_primary};

use crate::calls::Desk;
use crate::page::Page;
use bookings::entry::{Kind, Mark};
use journal::appender::Appender;
use journal::journal::Journal;
use journal::keeper::Keeper;
use journal::medium::Medium;
use journal::opened::NotOpened;
use network::outcome::Outcome;
use network::report::Report;
use network::takes::take;
use network::unplayed::Unplayed;
use network::writes::letter_for;
use replica::parcel::Parcel;
use replica::replica::Replica;
use replica::summary::Summary;
use std::alloc::{AllocError, Global};

#[derive(Drop)]
pub struct Station<J> {
    keeper: Keeper<J>,
    // Room for what a letter can hold, and for what comes of one, reserved once.
    parcel: Parcel,
    report: Report,
}

// A station that was opened, and how many bytes behind the last record were cut off.
#[derive(Drop)]
pub struct Opening<M> {
    pub station: Station<Appender<M>>,
    pub cut: usize,
}

impl<J: Journal + Drop> Station<J> {
    pub fn new(heap: Global, keeper: Keeper<J>) -> Result<Station<J>, AllocError>
        ensures { IfOk result (λ s. (s.keeper ≡ keeper) × (s.report.outcomes.items ≡ []) × (s.report.rejected ≡ Some 0)) }
    {
        let parcel = Parcel::new(heap)?;
        let report = Report::new(heap)?;
        Ok(Station {
            keeper,
            parcel,
            report,
        })
    }
}

impl<M: Medium + Drop> Station<Appender<M>> {
    // Opens the journal of a hut on a medium, on which these bytes were found after a stop. What is behind the last record that can stand is cut off.
    pub fn open(heap: Global, hut: u8, medium: M, found: &[u8]) -> Result<Opening<M>, NotOpened>
        ensures answer { MatchResult result
            (λ o. (hut < HUTS) × (o.cut ≡ length found.now - length (bytes_of (history_in hut found.now))))
            (λ e. elim e [ NoMemory ↦ Unit {0} | NoHut w ↦ (number_of w ≡ 2) × (HUTS ≤ hut) | Broken f ↦ Unit {0} ]) }
        ensures network { (m : Mail) → Runs m → FoundOf (m.hut hut) found.now → M.Medium.holds medium found.now (length (bytes_of (m.hut hut).durable)) → MatchResult result
            (λ o. LedOn (InStep (λ j bs n. (is_shut j.phase ≡ false) × M.Medium.holds j.medium bs n × (is_synced j.phase ≡ true → n ≡ length bs)) o.station.keeper) hut m (λ n. n ≡ keeping hut (reopened found.now (m.hut hut)) m))
            (λ _. Unit {0}) }
    {
        let opened = Keeper::open(heap, hut, medium, found)?;
        let station = Station::new(heap, opened.keeper)?;
        Ok(Opening {
            station,
            cut: opened.cut,
        })
    }
}

// Beyond what a desk says: what a call leaves, in the journal too.
impl<J: Journal + Drop> Desk for Station<J> {
    ghost state = { λ s. state_by s.keeper };

    ghost keeps = { λ s k. InStep J.keeps s.keeper k };

    ghost finds = { λ s bs. J.finds s.keeper.journal bs };

    // It is one hut alone.
    ghost beside = { λ _ _. Unit {0} };

    ghost places = { λ _. (0, []) };

    ghost unsynced = { λ s. J.clean s.keeper.journal ≡ false };

    ghost shut = { λ s. J.shut s.keeper.journal ≡ true };

    ghost came = { λ s. s.report.outcomes.items };

    ghost kept_out = { λ s. s.report.rejected };

    fn make(&mut self, kind: Kind) -> Result<Mark, Unplayed>
        ensures answer { MatchResult result
            (λ m. (make_refusal (plain_kind kind) (state_by self.old.keeper) ≡ None) × (plain_mark m ≡ next_mark (state_by self.old.keeper)))
            (λ e. Undone e (λ n. make_refusal (plain_kind kind) (state_by self.old.keeper) ≡ Some n) (J.Journal.shut self.new.keeper.journal ≡ true)) }
        ensures kept { MatchResult result
            (λ _. Moves J.Journal.keeps self.old.keeper self.new.keeper (λ k. synced (makes (plain_kind kind) k)))
            (Leaves J.Journal.keeps J.Journal.finds self.old.keeper self.new.keeper (makes (plain_kind kind))) }
        ensures keeps { (k : Kept) → InStep J.Journal.keeps self.old.keeper k → MatchResult result (λ _. InStep J.Journal.keeps self.new.keeper (synced (makes (plain_kind kind) k))) (Rests (InStep J.Journal.keeps self.new.keeper) k (FindsOf (J.Journal.finds self.new.keeper.journal) (makes (plain_kind kind) k))) }
    {
        Ok(self.keeper.make(kind)?)
    }

    fn commit(&mut self) -> Result<Option<Mark>, Unplayed>
        ensures answer { MatchResult result
            (λ m. (is_primary (state_by self.old.keeper) ≡ true) × (option_map plain_mark m ≡ first_mark (state_by self.old.keeper).log.tentative))
            (λ e. Undone e (λ n. (is_primary (state_by self.old.keeper) ≡ false) × (n ≡ 6)) (J.Journal.shut self.new.keeper.journal ≡ true)) }
        ensures kept { MatchResult result
            (λ m. MatchOption m
            (Moves J.Journal.keeps self.old.keeper self.new.keeper commits)
            (λ _. Moves J.Journal.keeps self.old.keeper self.new.keeper (λ k. synced (commits k))))
            (Leaves J.Journal.keeps J.Journal.finds self.old.keeper self.new.keeper commits) }
        ensures keeps { (k : Kept) → InStep J.Journal.keeps self.old.keeper k → MatchResult result (λ _. InStep J.Journal.keeps self.new.keeper (commits_synced k)) (Rests (InStep J.Journal.keeps self.new.keeper) k (FindsOf (J.Journal.finds self.new.keeper.journal) (commits k))) }
    {
        Ok(self.keeper.commit()?)
    }

    fn sync(&mut self) -> Result<(), Unplayed>
        ensures answer { MatchResult result
            (λ _. J.Journal.clean self.new.keeper.journal ≡ false → ⊥)
            (λ e. Undone e (λ _. ⊥) (J.Journal.shut self.new.keeper.journal ≡ true)) }
        ensures kept { MatchResult result
            (λ _. Moves J.Journal.keeps self.old.keeper self.new.keeper synced)
            (Leaves J.Journal.keeps J.Journal.finds self.old.keeper self.new.keeper (λ k. k)) }
        ensures state { state_by self.new.keeper ≡ state_by self.old.keeper }
        ensures keeps { (k : Kept) → InStep J.Journal.keeps self.old.keeper k → MatchResult result (λ _. InStep J.Journal.keeps self.new.keeper (synced k)) (Rests (InStep J.Journal.keeps self.new.keeper) k (FindsOf (J.Journal.finds self.new.keeper.journal) k)) }
    {
        self.keeper.sync()?;
        Ok(())
    }

    fn write(&mut self, has: &Summary, page: &mut Page) -> Result<(), Unplayed>
        ensures answer { MatchResult result (λ _. Unit {0}) Unwritten }
        ensures room { MatchResult result (λ _. Unit {0}) (λ e. elim e [ Memory ↦ ⊥ | Refused w ↦ ⊥ | Failed f ↦ Unit {0} ]) }
        ensures lawful { OnOk result (LetterOk (letter_for has.now.committed has.now.vector.stamps (state_by self.old.keeper))) }
        ensures letter { OnOk result (page.new.bytes.items ≡ encode_letter (letter_for has.now.committed has.now.vector.stamps (state_by self.old.keeper))) }
        ensures kept { MatchResult result
            (λ _. Moves J.Journal.keeps self.old.keeper self.new.keeper synced)
            (Leaves J.Journal.keeps J.Journal.finds self.old.keeper self.new.keeper (λ k. k)) }
        ensures keeps { (k : Kept) → InStep J.Journal.keeps self.old.keeper k → MatchResult result (λ _. InStep J.Journal.keeps self.new.keeper (synced k)) (Rests (InStep J.Journal.keeps self.new.keeper) k (FindsOf (J.Journal.finds self.new.keeper.journal) k)) }
    {
        page.bytes.clear();
        letter_for(&mut self.keeper, has, &mut self.parcel, &mut page.bytes)?;
        Ok(())
    }

    fn hear(&mut self, bytes: &[u8]) -> Result<(), Unplayed>
        ensures answer { MatchResult result (λ _. Unit {0}) (λ e. Undone e (λ _. ⊥) (J.Journal.shut self.new.keeper.journal ≡ true)) }
        ensures kept { MatchResult result
            (λ _. Moves J.Journal.keeps self.old.keeper self.new.keeper (take_bytes bytes.now))
            (Leaves J.Journal.keeps J.Journal.finds self.old.keeper self.new.keeper (take_bytes bytes.now)) }
        ensures report { (k : Kept) → InStep J.Journal.keeps self.old.keeper k → OnOk result (Reports self.new.report (read_letter bytes.now) k) }
        ensures keeps { (k : Kept) → InStep J.Journal.keeps self.old.keeper k → MatchResult result (λ _. InStep J.Journal.keeps self.new.keeper (take_bytes bytes.now k)) (Rests (InStep J.Journal.keeps self.new.keeper) k (FindsOf (J.Journal.finds self.new.keeper.journal) (take_bytes bytes.now k))) }
    {
        take(&mut self.keeper, bytes, &mut self.report)?;
        Ok(())
    }

    fn shown(&self) -> Option<&Replica> {
        self.keeper.shown()
    }

    fn outcomes(&self) -> &[Outcome] {
        self.report.outcomes()
    }

    fn rejected(&self) -> Option<usize> {
        if self.report.is_damaged() {
            return None;
        }
        Some(self.report.rejected())
    }

    ghost told_by = { λ _ _ in_step. in_step.state };

    ghost finds_only = { λ s _ in_step found at. J.found_after s.keeper.journal _ _ in_step.bytes found at };
}
