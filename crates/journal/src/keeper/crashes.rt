// A journal in memory crashes, and is opened again in the memory that it has.
ghost use Rattle.std.specs.Prelude.{◌≡◌, ℕ, ◌-◌, ◌<◌, ◌≤◌, Bool, true, false, length, vec_capacity};
ghost use Rattle.journal.specs.History.{Kept, state_with, synced, crashed};
ghost use Rattle.journal.specs.Keeping.{InStep, InMemory, left_by, state_by};
ghost use Rattle.journal.specs.Records.{bytes_of, history_in};

use super::Keeper;
use crate::appender::Appender;
use crate::memory::Memory;
use crate::open::replay_all;

impl Keeper<Appender<Memory>> {
    // Of what was not synced, the first `kept` bytes are left, and it is opened again; says how many bytes behind the last record were cut off.
    pub fn crash(&mut self, kept: usize) -> usize
        ensures kept { (k : Kept) → InStep InMemory self.old k → 0 < vec_capacity self.old.journal.medium.held
            → (lost : ℕ) × InStep InMemory self.new (synced (crashed lost k)) }
        ensures state { state_by self.new ≡ state_with (state_by self.old).hut (history_in (state_by self.old).hut (left_by kept self.old.journal.medium)) }
        ensures cut { result ≡ length (left_by kept self.old.journal.medium) - length (bytes_of (history_in (state_by self.old).hut (left_by kept self.old.journal.medium))) }
        ensures room { vec_capacity self.old.journal.medium.held ≤ vec_capacity self.new.journal.medium.held }
    {
        self.journal.medium.crash(kept);
        self.replica.forget();
        let found = self.journal.medium.bytes();
        let whole = replay_all(&mut self.replica, found);
        let cut = found.len() - whole;
        // Where that fails, the journal is shut, and nothing of it is shown.
        let _ = self.journal.restart(whole);
        cut
    }
}
