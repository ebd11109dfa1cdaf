// An act is played.
ghost use Rattle.std.specs.Prelude.{◌≡◌, ℕ, ◌<◌, ◌≤◌, Bool, true, false, Err, List, vec_len, MatchOption, MatchResult};
ghost use Rattle.journal.specs.History.{Kept};
ghost use Rattle.letters.specs.Letters.{read_letter};
ghost use Rattle.network.specs.Acts.{Told, Denied, writes, comes_of};
ghost use Rattle.network.specs.Hosting.{ForGuest};
ghost use Rattle.network.specs.Net.{Event};
ghost use Rattle.network.specs.Reached.{Promises};
ghost use Rattle.network.specs.Stages.{Follows, SameHuts, Synced, bytes_sent, hut_at, huts_of};
ghost use Rattle.network.specs.Stands.{Sent, Stands, Turned, Went};
ghost use Rattle.network.specs.Taking.{Reports};
ghost use Rattle.network.specs.declared.act.Act.TheVariants as acts;
ghost use Rattle.network.specs.declared.unplayed.Unplayed.TheVariants.{Memory, Refused, Failed};
ghost use Rattle.bookings.specs.declared.refusal.Refusal.TheVariants.{OutOfRange};

use super::Rehearsal;
use crate::act::{Act, Done};
use crate::unplayed::Unplayed;
use bookings::refusal::Refusal;
use std::alloc::Global;

impl Rehearsal {
    // The replica at a place does what it is told; refused where there is none (2).
    pub fn play(&mut self, heap: Global, at: usize, act: &Act) -> Result<Done, Unplayed>
        ensures absent { vec_len self.old.stage.keepers ≤ at → (result ≡ Err (Refused OutOfRange)) × (self.new.stage ≡ self.old.stage) }
        ensures answer { at < vec_len self.old.stage.keepers → MatchResult result
            (Told (huts_of self.old.stage) at (vec_len self.old.stage.letters) act.now)
            (λ e. elim e [ Memory ↦ writes act.now ≡ true | Refused w ↦ Denied (huts_of self.old.stage) at (vec_len self.old.stage.letters) act.now w | Failed f ↦ ⊥ ]) }
        ensures steps { (es : List Event) → at < vec_len self.old.stage.keepers → Stands self.old.stage es → Went self.old.stage self.new.stage at act.now result es }
        ensures turned { at < vec_len self.old.stage.keepers → Turned self.old.stage self.new.stage at act.now result }
        ensures guests { (es : List Event) (guest : ℕ) → at < vec_len self.old.stage.keepers → Stands self.old.stage es → ForGuest self.old.stage self.new.stage at act.now result es guest }
        ensures report { (kept : ℕ → Kept) → at < vec_len self.old.stage.keepers → Follows (huts_of self.old.stage) kept → MatchResult result
            (λ _. MatchOption (comes_of (bytes_sent self.old.stage) act.now) (Unit {0}) (λ bs. Reports self.new.stage.report (read_letter bs) (kept (hut_at (huts_of self.old.stage) at))))
            (λ _. Unit {0}) }
        ensures letters { at < vec_len self.old.stage.keepers → Sent self.old.stage self.new.stage at act.now result }
        ensures places { SameHuts (huts_of self.old.stage) (huts_of self.new.stage) }
        ensures many { vec_len self.new.stage.keepers ≡ vec_len self.old.stage.keepers }
        ensures clean { act.now ≡ acts.Sync → MatchResult result (λ _. Synced (huts_of self.new.stage) at) (λ _. Unit {0}) }
        ensures forged { self.new.forged ≡ self.old.forged }
        ensures promised { self.new.forged ≡ false → Promises self.new.stage }
    {
        if at >= self.stage.keepers.len() {
            return Err(Unplayed::Refused(Refusal::OutOfRange));
        }
        self.stage.act(heap, at, act)
    }
}
