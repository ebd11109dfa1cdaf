// What the lines of a hut call.
ghost use Rattle.std.specs.Prelude.{◌≡◌, ℕ, true, false, List, map, None, Some, Option, MatchOption, MatchResult, IfOk, OnOk};
ghost use Rattle.std.specs.Option.{option_map};
ghost use Rattle.bookings.specs.Plain.{plain_kind, plain_mark};
ghost use Rattle.desk.specs.Failures.{Undone, Unwritten};
ghost use Rattle.desk.specs.Steps.{Rests};
ghost use Rattle.entry_log.specs.Logs.{first_mark};
ghost use Rattle.journal.specs.Finding.{FindsOf};
ghost use Rattle.journal.specs.History.{Kept, commits, makes, state_in, synced};
ghost use Rattle.letters.specs.Items.{items_of};
ghost use Rattle.letters.specs.Letters.{encode_letter, read_letter};
ghost use Rattle.network.specs.Effects.{commits_synced};
ghost use Rattle.network.specs.Taking.{letter_for, outcomes_of, plain_outcome, take_bytes, told_out};
ghost use Rattle.network.specs.declared.outcome.Outcome.{Outcome};
ghost use Rattle.replica.specs.Model.{State, make_refusal, next_mark, is_primary};
ghost use Rattle.replica.specs.Views.{state_of};

use crate::page::Page;
use bookings::entry::{Kind, Mark};
use network::outcome::Outcome;
use network::unplayed::Unplayed;
use replica::replica::Replica;
use replica::summary::Summary;

// A replica over its journal, on a disk or in a rehearsal. What is refused leaves it as it was.
pub trait Desk {
    // What its replica knows.
    ghost state: { Self → State };

    // What is kept of it: the history of its journal.
    ghost keeps: { Self → Kept → Type 0 };

    // These bytes may be found of its journal after a stop.
    ghost finds: { Self → List ℕ → Type 0 };

    // Each other hut of its network keeps that; no call here changes it.
    ghost beside: { Self → (ℕ → Kept) → Type 0 };

    // Which place of its network is meant, and whose huts stand at which; no call here changes it.
    ghost places: { Self → ℕ × List ℕ };

    // Something of it is not synced.
    ghost unsynced: { Self → Type 0 };

    // Its journal failed: it takes no more until it is opened again.
    ghost shut: { Self → Type 0 };

    // What came of the letter that came last.
    ghost came: { Self → List Outcome };

    ghost kept_out: { Self → Option ℕ };

    // Makes an entry, and syncs it.
    fn make(&mut self, kind: Kind) -> Result<Mark, Unplayed>
        ensures answer { MatchResult result
            (λ m. (make_refusal (plain_kind kind) (state self.old) ≡ None) × (plain_mark m ≡ next_mark (state self.old)))
            (λ e. Undone e (λ n. make_refusal (plain_kind kind) (state self.old) ≡ Some n) (shut self.new)) }
        ensures keeps { (k : Kept) → keeps self.old k → MatchResult result (λ _. keeps self.new (synced (makes (plain_kind kind) k))) (Rests (keeps self.new) k (FindsOf (finds self.new) (makes (plain_kind kind) k))) }
        ensures beside { (kept : ℕ → Kept) → beside self.old kept → beside self.new kept }
        ensures places { places self.new ≡ places self.old };

    // Commits the first tentative entry, if there is one, and syncs that.
    fn commit(&mut self) -> Result<Option<Mark>, Unplayed>
        ensures answer { MatchResult result
            (λ m. (is_primary (state self.old) ≡ true) × (option_map plain_mark m ≡ first_mark (state self.old).log.tentative))
            (λ e. Undone e (λ n. (is_primary (state self.old) ≡ false) × (n ≡ 6)) (shut self.new)) }
        ensures keeps { (k : Kept) → keeps self.old k → MatchResult result (λ _. keeps self.new (commits_synced k)) (Rests (keeps self.new) k (FindsOf (finds self.new) (commits k))) }
        ensures beside { (kept : ℕ → Kept) → beside self.old kept → beside self.new kept }
        ensures places { places self.new ≡ places self.old };

    // All that it knows is synced.
    fn sync(&mut self) -> Result<(), Unplayed>
        ensures answer { MatchResult result (λ _. unsynced self.new → ⊥) (λ e. Undone e (λ _. ⊥) (shut self.new)) }
        ensures keeps { (k : Kept) → keeps self.old k → MatchResult result (λ _. keeps self.new (synced k)) (Rests (keeps self.new) k (FindsOf (finds self.new) k)) }
        ensures beside { (kept : ℕ → Kept) → beside self.old kept → beside self.new kept }
        ensures places { places self.new ≡ places self.old };

    // Syncs, and writes a letter for one that has what a summary says.
    fn write(&mut self, has: &Summary, page: &mut Page) -> Result<(), Unplayed>
        ensures answer { MatchResult result (λ _. Unit {0}) Unwritten }
        ensures letter { OnOk result (page.new.bytes.items ≡ encode_letter (letter_for has.now.committed has.now.vector.stamps (state self.old))) }
        ensures keeps { (k : Kept) → keeps self.old k → MatchResult result (λ _. keeps self.new (synced k)) (Rests (keeps self.new) k (FindsOf (finds self.new) k)) }
        ensures beside { (kept : ℕ → Kept) → beside self.old kept → beside self.new kept }
        ensures places { places self.new ≡ places self.old };

    // Bytes come, whatever they are.
    fn hear(&mut self, bytes: &[u8]) -> Result<(), Unplayed>
        ensures answer { MatchResult result (λ _. Unit {0}) (λ e. Undone e (λ _. ⊥) (shut self.new)) }
        ensures keeps { (k : Kept) → keeps self.old k → MatchResult result (λ _. keeps self.new (take_bytes bytes.now k)) (Rests (keeps self.new) k (FindsOf (finds self.new) (take_bytes bytes.now k))) }
        ensures report { (k : Kept) → keeps self.old k → OnOk result
            ((kept_out self.new ≡ told_out (read_letter bytes.now)) × (map plain_outcome (came self.new) ≡ outcomes_of (items_of (read_letter bytes.now)) k)) }
        ensures beside { (kept : ℕ → Kept) → beside self.old kept → beside self.new kept }
        ensures places { places self.new ≡ places self.old };

    // The replica, to be shown: none where something of it is not synced, and just there.
    fn shown(&self) -> Option<&Replica>
        ensures { MatchOption result (unsynced self.now) (λ p. (state_of p.now ≡ state self.now) × (unsynced self.now → ⊥)) };

    // What came of the entries of the letter that came last, in its order.
    fn outcomes(&self) -> &[Outcome]
        ensures { result.now ≡ came self.now };

    // How many of them were kept out; nothing where it was damaged, and kept out whole.
    fn rejected(&self) -> Option<usize>
        ensures { result ≡ kept_out self.now };

    // What is kept of it tells what its replica knows,
    ghost told_by: { (d : Self) (k : Kept) → keeps d k → state d ≡ state_in k };

    // and what a stop finds: all that was synced, and some first part of the rest.
    ghost finds_only: { (d : Self) (k : Kept) → keeps d k → FindsOf (finds d) k };
}
