// A journal over a medium. After a failed write or sync it takes no more.
ghost use Rattle.std.specs.Prelude.{◌≡◌, ℕ, ◌+◌, ◌<◌, ◌≤◌, Bool, true, false, not, List, ◌++◌, length, take, is_ok, MatchResult};
ghost use Rattle.std.proofs.Common.{rules};
ghost use Rattle.journal.specs.Finding.{FoundFirst, OnlyFinds};
ghost use Rattle.journal.specs.Phases.{is_synced, is_shut};
ghost use Rattle.journal.specs.declared.phase.Phase.TheVariants.{Written};

use crate::fault::Fault;
use crate::journal::Journal;
use crate::medium::Medium;
use crate::phase::Phase;

#[derive(Drop)]
pub struct Appender<M> {
    pub(crate) medium: M,
    pub(crate) phase: Phase,
}

impl<M: Medium + Drop> Appender<M> {
    // A journal over a medium, of which it is not known what is settled.
    pub(crate) fn new(medium: M) -> Appender<M>
        ensures { (result.medium ≡ medium) × (result.phase ≡ Written) }
    {
        Appender {
            medium,
            phase: Phase::Written,
        }
    }

    // Settles the medium. It is shut until that is done.
    fn settle(&mut self) -> Result<(), Fault>
        ensures phase { MatchResult result (λ _. is_synced self.new.phase ≡ true) (λ _. is_shut self.new.phase ≡ true) }
        ensures holds { (bs : List ℕ) (n : ℕ) → is_ok result ≡ true → M.holds self.old.medium bs n → M.holds self.new.medium bs (length bs) }
        ensures finds { (bs : List ℕ) (n : ℕ) → is_ok result ≡ false → M.holds self.old.medium bs n → OnlyFinds (M.finds self.new.medium) bs n }
        ensures lasts { (bs : List ℕ) → FoundFirst (M.finds self.old.medium) bs → FoundFirst (M.finds self.new.medium) bs }
        ensures room { M.room self.old.medium ≤ M.room self.new.medium }
        ensures sure { 0 < M.room self.old.medium → is_ok result ≡ true }
    {
        self.phase = Phase::Shut;
        self.medium.settle()?;
        self.phase = Phase::Synced;
        Ok(())
    }

    // Goes on behind the first `left` bytes, all of which are synced.
    pub(crate) fn restart(&mut self, left: usize) -> Result<(), Fault>
        ensures open { MatchResult result (λ _. is_synced self.new.phase ≡ true) (λ _. is_shut self.new.phase ≡ true) }
        ensures holds { (bs : List ℕ) (n : ℕ) → is_ok result ≡ true → n ≤ left → M.holds self.old.medium bs n → M.holds self.new.medium (take left bs) (length (take left bs)) }
        ensures room { M.room self.old.medium ≤ M.room self.new.medium }
        ensures sure { 0 < M.room self.old.medium → is_ok result ≡ true }
    {
        self.phase = Phase::Shut;
        self.medium.cut(left)?;
        self.settle()
    }
}

impl<M: Medium + Drop> Journal for Appender<M> {
    ghost keeps = { λ a bs n. (is_shut a.phase ≡ false) × M.Medium.holds a.medium bs n × (is_synced a.phase ≡ true → n ≡ length bs) };

    ghost finds = { λ a bs. M.Medium.finds a.medium bs };

    ghost room = { λ a. M.Medium.room a.medium };

    ghost clean = { λ a. is_synced a.phase };

    ghost shut = { λ a. is_shut a.phase };

    ghost found_after = { Prim.search rules };

    ghost cleanly = { Prim.search rules };

    // It is shut until all is written.
    fn append(&mut self, more: &[u8]) -> Result<(), Fault> {
        if let Phase::Shut = self.phase {
            return Err(Fault::Shut);
        }
        self.phase = Phase::Shut;
        self.medium.put(more)?;
        self.phase = Phase::Written;
        Ok(())
    }

    // Where nothing was written since the last sync, there is nothing to do.
    fn sync(&mut self) -> Result<(), Fault> {
        match self.phase {
            Phase::Synced => Ok(()),
            Phase::Written => self.settle(),
            Phase::Shut => Err(Fault::Shut),
        }
    }

    fn is_clean(&self) -> bool {
        matches!(self.phase, Phase::Synced)
    }
}
