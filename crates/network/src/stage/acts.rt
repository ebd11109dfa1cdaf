// Whatever the replica at a place is told.
ghost use Rattle.std.specs.Prelude.{◌≡◌, ℕ, ◌<◌, true, List, vec_len, MatchOption, MatchResult};
ghost use Rattle.journal.specs.History.{Kept};
ghost use Rattle.letters.specs.Letters.{read_letter};
ghost use Rattle.network.specs.Acts.{Told, Denied, writes, comes_of};
ghost use Rattle.network.specs.Net.{Event};
ghost use Rattle.network.specs.Stages.{Follows, SameHuts, Never, Synced, bytes_sent, hut_at, huts_of};
ghost use Rattle.network.specs.Stands.{Sent, Stands, Turned, Went};
ghost use Rattle.network.specs.Taking.{Reports};
ghost use Rattle.network.specs.declared.act.Act.TheVariants as acts;
ghost use Rattle.network.specs.declared.unplayed.Unplayed.TheVariants.{Memory, Refused, Failed};

use super::Stage;
use crate::act::{Act, Done};
use crate::unplayed::Unplayed;
use std::alloc::Global;

impl Stage {
    pub(crate) fn act(&mut self, heap: Global, at: usize, act: &Act) -> Result<Done, Unplayed>
        requires { at < vec_len self.old.keepers }
        ensures answer { MatchResult result
            (Told (huts_of self.old) at (vec_len self.old.letters) act.now)
            (λ e. elim e [ Memory ↦ writes act.now ≡ true | Refused w ↦ Denied (huts_of self.old) at (vec_len self.old.letters) act.now w | Failed f ↦ Never (huts_of self.old) ]) }
        ensures report { (kept : ℕ → Kept) → Follows (huts_of self.old) kept → MatchResult result
            (λ _. MatchOption (comes_of (bytes_sent self.old) act.now) (Unit {0}) (λ bs. Reports self.new.report (read_letter bs) (kept (hut_at (huts_of self.old) at))))
            (λ _. Unit {0}) }
        ensures follows { (kept : ℕ → Kept) → Follows (huts_of self.old) kept → (now : ℕ → Kept) × Follows (huts_of self.new) now × SameHuts (huts_of self.old) (huts_of self.new) }
        ensures letters { Sent self.old self.new at act.now result }
        ensures many { vec_len self.new.keepers ≡ vec_len self.old.keepers }
        ensures clean { act.now ≡ acts.Sync → MatchResult result (λ _. Synced (huts_of self.new) at) (λ _. Unit {0}) }
        ensures turned { Turned self.old self.new at act.now result }
        ensures steps { (es : List Event) → Stands self.old es → Went self.old self.new at act.now result es }
    {
        match act {
            Act::Make(kind) => self.make(at, *kind),
            Act::Commit => self.commit(at),
            Act::Sync => self.sync(at),
            Act::Write(has) => self.write(heap, at, has),
            Act::Take { letter } => self.take(at, *letter, None),
            Act::Cut { letter, length } => self.take(at, *letter, Some(*length)),
            Act::Crash { left } => Ok(self.crash(at, *left)),
            Act::Visit(slip) => self.visit(at, *slip),
        }
    }
}
