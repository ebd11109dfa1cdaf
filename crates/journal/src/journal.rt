// A journal: bytes that are only appended to, and synced.
ghost use Rattle.std.specs.Prelude.{◌≡◌, ℕ, ◌+◌, ◌<◌, ◌≤◌, Bool, true, false, not, List, ◌++◌, length, is_ok};
ghost use Rattle.journal.specs.Finding.{FoundFirst, OnlyFinds};

use crate::fault::Fault;

// `room`, `sure` and `shut` stand at each call again, since they bind what was before it to what is after: no value carries that.
pub trait Journal {
    // It is open and has these bytes, of which the first so many are synced.
    ghost keeps: { Self → List ℕ → ℕ → Type 0 };

    // These bytes may be found after a stop.
    ghost finds: { Self → List ℕ → Type 0 };

    // As long as it has fewer bytes than this, it does not fail; 0 where that cannot be said.
    ghost room: { Self → ℕ };

    // Nothing was written behind the last sync.
    ghost clean: { Self → Bool };

    // A write or a sync failed: it takes no more.
    ghost shut: { Self → Bool };

    fn append(&mut self, more: &[u8]) -> Result<(), Fault>
        ensures keeps { (bs : List ℕ) (n : ℕ) → is_ok result ≡ true → keeps self.old bs n → keeps self.new (bs ++ more.now) n }
        ensures finds { (bs : List ℕ) (n : ℕ) → is_ok result ≡ false → keeps self.old bs n → OnlyFinds (finds self.new) (bs ++ more.now) n }
        ensures lasts { (bs : List ℕ) → FoundFirst (finds self.old) bs → FoundFirst (finds self.new) bs }
        ensures room { room self.old ≤ room self.new }
        ensures sure { (bs : List ℕ) (n : ℕ) → keeps self.old bs n → length bs + length more.now < room self.old → is_ok result ≡ true }
        ensures shut { (shut self.new ≡ not (is_ok result)) × ((shut self.old ≡ true → is_ok result ≡ false)) };

    fn sync(&mut self) -> Result<(), Fault>
        ensures keeps { (bs : List ℕ) (n : ℕ) → is_ok result ≡ true → keeps self.old bs n → keeps self.new bs (length bs) }
        ensures finds { (bs : List ℕ) (n : ℕ) → is_ok result ≡ false → keeps self.old bs n → OnlyFinds (finds self.new) bs n }
        ensures lasts { (bs : List ℕ) → FoundFirst (finds self.old) bs → FoundFirst (finds self.new) bs }
        ensures room { room self.old ≤ room self.new }
        ensures sure { (bs : List ℕ) (n : ℕ) → keeps self.old bs n → 0 < room self.old → is_ok result ≡ true }
        ensures clean { is_ok result ≡ true → clean self.new ≡ true }
        ensures shut { (shut self.new ≡ not (is_ok result)) × ((shut self.old ≡ true → is_ok result ≡ false)) };

    // Whether all that was written is synced.
    fn is_clean(&self) -> bool
        ensures { result ≡ clean self.now };

    // All that is synced is found, and some first part of what was written behind it.
    ghost found_after: { (j : Self) (bs : List ℕ) (n : ℕ) → keeps j bs n → OnlyFinds (finds j) bs n };

    ghost cleanly: { (j : Self) (bs : List ℕ) (n : ℕ) → clean j ≡ true → keeps j bs n → n ≡ length bs };
}
