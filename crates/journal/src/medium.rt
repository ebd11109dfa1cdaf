// What a disk does.
ghost use Rattle.std.specs.Prelude.{◌≡◌, ℕ, ◌+◌, ◌<◌, ◌≤◌, true, false, List, ◌++◌, length, take, is_ok};
ghost use Rattle.journal.specs.Finding.{FoundFirst, OnlyFinds};

use crate::fault::Fault;

pub trait Medium {
    // It has these bytes, of which the first so many stay whatever happens.
    ghost holds: { Self → List ℕ → ℕ → Type 0 };

    // These bytes may be found on it after a stop.
    ghost finds: { Self → List ℕ → Type 0 };

    // As long as it has fewer bytes than this, it does not fail; 0 where that cannot be said.
    ghost room: { Self → ℕ };

    // Writes behind all. Where it fails, it may have written a part, and that is all that may be found beyond what it had.
    fn put(&mut self, more: &[u8]) -> Result<(), Fault>
        ensures holds { (bs : List ℕ) (n : ℕ) → is_ok result ≡ true → holds self.old bs n → holds self.new (bs ++ more.now) n }
        ensures finds { (bs : List ℕ) (n : ℕ) → is_ok result ≡ false → holds self.old bs n → OnlyFinds (finds self.new) (bs ++ more.now) n }
        ensures lasts { (bs : List ℕ) → FoundFirst (finds self.old) bs → FoundFirst (finds self.new) bs }
        ensures room { room self.old ≤ room self.new }
        ensures sure { (bs : List ℕ) (n : ℕ) → holds self.old bs n → length bs + length more.now < room self.old → is_ok result ≡ true };

    // From then on all of it stays.
    fn settle(&mut self) -> Result<(), Fault>
        ensures holds { (bs : List ℕ) (n : ℕ) → is_ok result ≡ true → holds self.old bs n → holds self.new bs (length bs) }
        ensures finds { (bs : List ℕ) (n : ℕ) → is_ok result ≡ false → holds self.old bs n → OnlyFinds (finds self.new) bs n }
        ensures lasts { (bs : List ℕ) → FoundFirst (finds self.old) bs → FoundFirst (finds self.new) bs }
        ensures room { room self.old ≤ room self.new }
        ensures sure { 0 < room self.old → is_ok result ≡ true };

    // Drops what stands behind the first so many bytes; what stays is not among it.
    fn cut(&mut self, left: usize) -> Result<(), Fault>
        ensures holds { (bs : List ℕ) (n : ℕ) → is_ok result ≡ true → n ≤ left → holds self.old bs n → holds self.new (take left bs) n }
        ensures finds { (bs : List ℕ) (n : ℕ) → is_ok result ≡ false → n ≤ left → holds self.old bs n → OnlyFinds (finds self.new) bs n }
        ensures lasts { (bs : List ℕ) → length bs ≤ left → FoundFirst (finds self.old) bs → FoundFirst (finds self.new) bs }
        ensures room { room self.old ≤ room self.new }
        ensures sure { 0 < room self.old → is_ok result ≡ true };

    // All that stays is found, and some first part of what was written behind it.
    ghost found_after: { (m : Self) (bs : List ℕ) (n : ℕ) → holds m bs n → OnlyFinds (finds m) bs n };
}
