// What is shown and handed on is read from a replica whose journal is synced.
ghost use Rattle.std.specs.Prelude.{◌≡◌, ℕ, ◌<◌, ◌≤◌, Bool, true, false, not, List, is_ok, MatchOption, MatchResult};
ghost use Rattle.journal.specs.History.{Kept, synced};
ghost use Rattle.journal.specs.Keeping.{InStep, Moves, Fails, state_by};

use super::Keeper;
use crate::fault::Fault;
use crate::journal::Journal;
use replica::replica::Replica;

impl<J: Journal + Drop> Keeper<J> {
    // Whose replica it is.
    pub fn hut(&self) -> u8
        ensures { result ≡ (state_by self.now).hut }
    {
        self.replica.hut()
    }

    // All that the replica knows is synced.
    pub fn sync(&mut self) -> Result<(), Fault>
        ensures kept { MatchResult result
            (λ _. Moves J.keeps self.old self.new synced)
            (λ _. Fails J.keeps J.finds self.old self.new (λ k. k)) }
        ensures clean { is_ok result ≡ true → J.clean self.new.journal ≡ true }
        ensures shut { (J.shut self.new.journal ≡ not (is_ok result)) × (J.shut self.old.journal ≡ true → is_ok result ≡ false) }
        ensures room { J.room self.old.journal ≤ J.room self.new.journal }
        ensures sure { (k : Kept) → InStep J.keeps self.old k → 0 < J.room self.old.journal → is_ok result ≡ true }
        ensures replica { self.new.replica ≡ self.old.replica }
    {
        self.journal.sync()?;
        Ok(())
    }

    // The replica, to be shown and handed on: none where something of it is not synced.
    pub fn shown(&self) -> Option<&Replica>
        ensures { MatchOption result (J.clean self.now.journal ≡ false) (λ p. (p.now ≡ self.now.replica) × (J.clean self.now.journal ≡ true)) }
    {
        self.journal.is_clean().then_some(&self.replica)
    }
}
