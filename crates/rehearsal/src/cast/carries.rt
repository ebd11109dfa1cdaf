// Letters are carried from hut to hut, and huts crash.
ghost use Rattle.std.specs.Prelude.{◌≡◌, ℕ, ◌⊎◌, true, false, List, [], ◌∷◌, ◌++◌, length, take, vec_len, MatchOption, MatchResult, OnErr, OnOk};
ghost use Rattle.bookings.specs.Refusals.{number_of};
ghost use Rattle.journal.specs.History.{Kept, crashed, synced};
ghost use Rattle.letters.specs.Letters.{read_letter};
ghost use Rattle.network.specs.Acts.{writes, comes_of};
ghost use Rattle.network.specs.Casts.{Absent};
ghost use Rattle.network.specs.Effects.{reopens};
ghost use Rattle.network.specs.Net.{Event, Syncs, Takes, Crashes, after};
ghost use Rattle.network.specs.Reached.{Promises};
ghost use Rattle.network.specs.Stages.{Follows, SameHuts, bytes_sent, huts_of};
ghost use Rattle.network.specs.Stands.{Stands, cut_comes};
ghost use Rattle.network.specs.Taking.{Reports};
ghost use Rattle.network.specs.declared.unplayed.Unplayed.TheVariants.{Memory, Refused, Failed};
ghost use Rattle.rehearsal.specs.Carrying.{CanCome, CutsOff, DeniedBy, Numbered, Present, RefusedUnless, ToldBy, WentBy, bytes_by, letter_of, sends};

use super::Cast;
use bookings::refusal::Refusal;
use network::act::{Act, Done};
use network::unplayed::Unplayed;
use std::alloc::Global;

impl Cast {
    // A hut does what it is told; refused where it is none of them (2), and then all is as before.
    fn tell(&mut self, heap: Global, hut: u64, act: &Act) -> Result<Done, Unplayed>
        ensures answer { MatchResult result
            (ToldBy self.old.rehearsal.stage hut act.now)
            (λ e. elim e [ Memory ↦ writes act.now ≡ true | Refused w ↦ DeniedBy self.old.rehearsal.stage hut act.now w | Failed f ↦ ⊥ ]) }
        ensures absent { Absent hut (huts_of self.old.rehearsal.stage) → self.new.rehearsal ≡ self.old.rehearsal }
        ensures steps { (es : List Event) → Stands self.old.rehearsal.stage es → WentBy self.old.rehearsal.stage self.new.rehearsal.stage hut act.now result es }
        ensures report { (kept : ℕ → Kept) → Follows (huts_of self.old.rehearsal.stage) kept → OnOk result
            (MatchOption (comes_of (bytes_sent self.old.rehearsal.stage) act.now) (Unit {0}) (λ bs. Reports self.new.rehearsal.stage.report (read_letter bs) (kept hut))) }
        ensures places { SameHuts (huts_of self.old.rehearsal.stage) (huts_of self.new.rehearsal.stage) }
        ensures promised { self.new.rehearsal.forged ≡ false → Promises self.new.rehearsal.stage }
        ensures forged { self.new.rehearsal.forged ≡ self.old.rehearsal.forged }
        ensures current { self.new.current ≡ self.old.current }
        ensures carried { self.new.carried ≡ self.old.carried }
    {
        let at = self.place(hut)?;
        self.rehearsal.play(heap, at, act)
    }

    // A letter from one hut for what another has, which is synced first; its number, from 1. Refused where one of them is none of the huts (2).
    pub fn send(&mut self, heap: Global, from: u64, to: u64) -> Result<u64, Unplayed>
        ensures answer { MatchResult result
            (λ k. Present from (huts_of self.old.rehearsal.stage) × Present to (huts_of self.old.rehearsal.stage) × (k ≡ vec_len self.new.carried))
            (λ e. elim e [ Memory ↦ Unit {0} | Refused w ↦ (number_of w ≡ 2) × (Present from (huts_of self.old.rehearsal.stage) × Present to (huts_of self.old.rehearsal.stage) → ⊥) | Failed f ↦ ⊥ ]) }
        ensures noted { (es : List Event) → Stands self.old.rehearsal.stage es → OnOk result (self.new.carried.items ≡ self.old.carried.items ++ length (after es).sent ∷ []) }
        ensures unnoted { OnErr result (self.new.carried.items ≡ self.old.carried.items) }
        ensures steps { (es : List Event) → Stands self.old.rehearsal.stage es → OnOk result (Stands self.new.rehearsal.stage (es ++ sends from to ((after es).hut to))) }
        ensures unsent { (es : List Event) → Stands self.old.rehearsal.stage es → OnErr result
            (Stands self.new.rehearsal.stage es ⊎ Stands self.new.rehearsal.stage (es ++ Syncs to ∷ []) ⊎ Stands self.new.rehearsal.stage (es ++ Syncs to ∷ Syncs from ∷ [])) }
        ensures places { SameHuts (huts_of self.old.rehearsal.stage) (huts_of self.new.rehearsal.stage) }
        ensures promised { self.new.rehearsal.forged ≡ false → Promises self.new.rehearsal.stage }
        ensures forged { self.new.rehearsal.forged ≡ self.old.rehearsal.forged }
        ensures current { self.new.current ≡ self.old.current }
    {
        let sender = self.place(from)?;
        let receiver = self.place(to)?;
        self.carried.reserve(1)?;
        self.rehearsal.play(heap, receiver, &Act::Sync)?;
        // It is synced, so it is shown: this refusal never comes.
        let replica = self.rehearsal.shown(receiver).ok_or(Refusal::OutOfRange)?;
        let has = replica.summary();
        match self.rehearsal.play(heap, sender, &Act::Write(has))? {
            Done::Written(letter) => {
                self.carried.push_reserved(letter);
                // No `From` makes a u64 of a usize; nothing is lost by `as`.
                Ok(self.carried.len() as u64)
            }
            // Nothing else comes of a letter that is written.
            _ => Ok(0),
        }
    }

    // Which letter has a number; refused where none has it (2).
    fn numbered(&self, number: u64) -> Result<usize, Refusal>
        ensures { MatchResult result
            (λ l. Numbered self.now.carried.items (vec_len self.now.rehearsal.stage.letters) number × (l ≡ letter_of self.now.carried.items number))
            (λ e. (number_of e ≡ 2) × (Numbered self.now.carried.items (vec_len self.now.rehearsal.stage.letters) number → ⊥)) }
    {
        let before = number.checked_sub(1).ok_or(Refusal::OutOfRange)?;
        let place = usize::try_from(before).map_err(|_| Refusal::OutOfRange)?;
        let letter = *self.carried.get(place).ok_or(Refusal::OutOfRange)?;
        self.rehearsal.letter(letter).ok_or(Refusal::OutOfRange)?;
        Ok(letter)
    }

    // The letter with a number comes to a hut; refused where there is no such letter or hut (2), and then all is as before.
    pub fn take(&mut self, heap: Global, number: u64, to: u64) -> Result<(), Unplayed>
        ensures answer { MatchResult result (λ _. CanCome self.old number to) (RefusedUnless (CanCome self.old number to)) }
        ensures refused { OnErr result (self.new.rehearsal ≡ self.old.rehearsal) }
        ensures steps { (es : List Event) → Stands self.old.rehearsal.stage es → OnOk result
            (Stands self.new.rehearsal.stage (es ++ Takes to (letter_of self.old.carried.items number) ∷ [])) }
        ensures report { (kept : ℕ → Kept) → Follows (huts_of self.old.rehearsal.stage) kept → OnOk result
            (Reports self.new.rehearsal.stage.report (read_letter (bytes_by self.old number)) (kept to)) }
        ensures places { SameHuts (huts_of self.old.rehearsal.stage) (huts_of self.new.rehearsal.stage) }
        ensures promised { self.new.rehearsal.forged ≡ false → Promises self.new.rehearsal.stage }
        ensures forged { self.new.rehearsal.forged ≡ self.old.rehearsal.forged }
        ensures current { self.new.current ≡ self.old.current }
        ensures carried { self.new.carried ≡ self.old.carried }
    {
        let letter = self.numbered(number)?;
        self.tell(heap, to, &Act::Take { letter })?;
        Ok(())
    }

    // Only its first bytes come, so many of them.
    pub fn cut(&mut self, heap: Global, number: u64, to: u64, bytes: u64) -> Result<(), Unplayed>
        ensures answer { MatchResult result (λ _. CanCome self.old number to) (RefusedUnless (CanCome self.old number to)) }
        ensures refused { OnErr result (self.new.rehearsal ≡ self.old.rehearsal) }
        ensures steps { (es : List Event) → Stands self.old.rehearsal.stage es → OnOk result
            (Stands self.new.rehearsal.stage (es ++ cut_comes to (letter_of self.old.carried.items number) bytes (bytes_by self.old number))) }
        ensures report { (kept : ℕ → Kept) → Follows (huts_of self.old.rehearsal.stage) kept → OnOk result
            (Reports self.new.rehearsal.stage.report (read_letter (take bytes (bytes_by self.old number))) (kept to)) }
        ensures places { SameHuts (huts_of self.old.rehearsal.stage) (huts_of self.new.rehearsal.stage) }
        ensures promised { self.new.rehearsal.forged ≡ false → Promises self.new.rehearsal.stage }
        ensures forged { self.new.rehearsal.forged ≡ self.old.rehearsal.forged }
        ensures current { self.new.current ≡ self.old.current }
        ensures carried { self.new.carried ≡ self.old.carried }
    {
        let letter = self.numbered(number)?;
        // More bytes than memory has are all bytes of any letter.
        let length = usize::try_from(bytes).unwrap_or(usize::MAX);
        self.tell(heap, to, &Act::Cut { letter, length })?;
        Ok(())
    }

    // A hut crashes, and is opened again: of what was not synced the first bytes are left; how many behind the last record were cut off. Refused where it is none of the huts (2), and then all is as before.
    pub fn crash(&mut self, heap: Global, hut: u64, bytes: u64) -> Result<usize, Unplayed>
        ensures answer { MatchResult result
            (CutsOff (huts_of self.old.rehearsal.stage) hut bytes)
            (RefusedUnless (Present hut (huts_of self.old.rehearsal.stage))) }
        ensures refused { OnErr result (self.new.rehearsal ≡ self.old.rehearsal) }
        ensures steps { (es : List Event) → Stands self.old.rehearsal.stage es → OnOk result
            ((lost : ℕ) × Stands self.new.rehearsal.stage (es ++ Crashes hut lost ∷ Syncs hut ∷ []) × (synced (crashed lost ((after es).hut hut)) ≡ reopens bytes ((after es).hut hut))) }
        ensures places { SameHuts (huts_of self.old.rehearsal.stage) (huts_of self.new.rehearsal.stage) }
        ensures promised { self.new.rehearsal.forged ≡ false → Promises self.new.rehearsal.stage }
        ensures forged { self.new.rehearsal.forged ≡ self.old.rehearsal.forged }
        ensures current { self.new.current ≡ self.old.current }
        ensures carried { self.new.carried ≡ self.old.carried }
    {
        let left = usize::try_from(bytes).unwrap_or(usize::MAX);
        match self.tell(heap, hut, &Act::Crash { left })? {
            Done::Crashed { cut } => Ok(cut),
            // Nothing else comes of a crash.
            _ => Ok(0),
        }
    }
}
