// A medium in memory, that crashes when it is told to.
ghost use Rattle.std.specs.Prelude.{◌≡◌, ℕ, ◌+◌, ◌≤◌, List, [], take, IfOk, vec_len, vec_capacity};
ghost use Rattle.std.proofs.Common.{rules};
ghost use Rattle.journal.specs.Finding.{Found};

use crate::fault::Fault;
pub use crate::limits::JOURNAL_ROOM;
use crate::medium::Medium;
use std::alloc::{AllocError, Global};

#[derive(Drop)]
pub struct Memory {
    held: Vec<u8>,
    settled: usize,
    ghost within: { settled ≤ vec_len held },
}

impl Memory {
    // An empty one, with room for so many bytes.
    pub fn new(heap: Global, room: usize) -> Result<Memory, AllocError>
        ensures { IfOk result (λ m. (m.held.items ≡ []) × (m.settled ≡ 0) × (room ≤ vec_capacity m.held)) }
    {
        let held = Vec::with_capacity(heap, room)?;
        Ok(Memory { held, settled: 0 })
    }

    // A crash: of what was not settled, the first `kept` bytes are there afterwards.
    pub fn crash(&mut self, kept: usize)
        ensures held { self.new.held.items ≡ take (self.old.settled + kept) self.old.held.items }
        ensures settled { self.new.settled ≡ self.old.settled }
        ensures found { Found self.old.held.items self.old.settled self.new.held.items }
        ensures room { vec_capacity self.new.held ≡ vec_capacity self.old.held }
    {
        self.held.truncate(self.settled.saturating_add(kept));
    }

    pub fn bytes(&self) -> &[u8]
        ensures { result.now ≡ self.now.held.items }
    {
        self.held.as_slice()
    }
}

impl Medium for Memory {
    ghost holds = { λ m bs n. (m.held.items ≡ bs) × (m.settled ≡ n) };

    ghost finds = { λ m bs. Found m.held.items m.settled bs };

    ghost room = { λ m. vec_capacity m.held };

    ghost found_after = { Prim.search rules };

    fn put(&mut self, more: &[u8]) -> Result<(), Fault> {
        self.held.extend_from_slice(more)?;
        Ok(())
    }

    fn settle(&mut self) -> Result<(), Fault> {
        self.settled = self.held.len();
        Ok(())
    }

    fn cut(&mut self, left: usize) -> Result<(), Fault> {
        self.held.truncate(left);
        self.settled = self.settled.min(left);
        Ok(())
    }
}
