// What the replica at a place does, act by act.
ghost use Rattle.std.specs.Prelude.{◌≡◌, ◌<◌, vec_len, MatchResult};
ghost use Rattle.bookings.specs.Plain.{plain_kind};
ghost use Rattle.journal.specs.History.{synced, makes};
ghost use Rattle.network.specs.Acts.{Told, Denied};
ghost use Rattle.network.specs.Effects.{commits_synced, reopens};
ghost use Rattle.network.specs.Stages.{Never, Synced, Turns, Unmoved, huts_of};
ghost use Rattle.network.specs.declared.act.Act.TheVariants as acts;
ghost use Rattle.network.specs.declared.unplayed.Unplayed.TheVariants.{Memory, Refused, Failed};

use super::Stage;
use crate::act::Done;
use crate::unplayed::Unplayed;
use bookings::entry::Kind;
use entry_log::vector::Vector;
use journal::fault::Fault;

impl Stage {
    // An entry is made.
    pub(crate) fn make(&mut self, at: usize, kind: Kind) -> Result<Done, Unplayed>
        requires { at < vec_len self.old.keepers }
        ensures answer { MatchResult result (Told (huts_of self.old) at 0 (acts.Make kind)) (λ e. elim e [ Memory ↦ ⊥ | Refused w ↦ Denied (huts_of self.old) at 0 (acts.Make kind) w | Failed f ↦ Never (huts_of self.old) ]) }
        ensures kept { MatchResult result (λ _. Turns (huts_of self.old) (huts_of self.new) at (λ k. synced (makes (plain_kind kind) k))) (Unmoved (huts_of self.old) (huts_of self.new) at (λ k. k)) }
        ensures letters { self.new.letters ≡ self.old.letters }
        ensures many { vec_len self.new.keepers ≡ vec_len self.old.keepers }
    {
        Ok(Done::Made(self.keepers[at].make(kind)?))
    }

    // The first tentative entry is committed.
    pub(crate) fn commit(&mut self, at: usize) -> Result<Done, Unplayed>
        requires { at < vec_len self.old.keepers }
        ensures answer { MatchResult result (Told (huts_of self.old) at 0 acts.Commit) (λ e. elim e [ Memory ↦ ⊥ | Refused w ↦ Denied (huts_of self.old) at 0 acts.Commit w | Failed f ↦ Never (huts_of self.old) ]) }
        ensures kept { MatchResult result (λ _. Turns (huts_of self.old) (huts_of self.new) at commits_synced) (Unmoved (huts_of self.old) (huts_of self.new) at (λ k. k)) }
        ensures letters { self.new.letters ≡ self.old.letters }
        ensures many { vec_len self.new.keepers ≡ vec_len self.old.keepers }
    {
        Ok(Done::Committed(self.keepers[at].commit()?))
    }

    // All that the replica knows is synced.
    pub(crate) fn sync(&mut self, at: usize) -> Result<Done, Unplayed>
        requires { at < vec_len self.old.keepers }
        ensures answer { MatchResult result (Told (huts_of self.old) at 0 acts.Sync) (λ e. elim e [ Memory ↦ ⊥ | Refused w ↦ ⊥ | Failed f ↦ Never (huts_of self.old) ]) }
        ensures kept { MatchResult result (λ _. Turns (huts_of self.old) (huts_of self.new) at synced) (Unmoved (huts_of self.old) (huts_of self.new) at (λ k. k)) }
        ensures letters { self.new.letters ≡ self.old.letters }
        ensures many { vec_len self.new.keepers ≡ vec_len self.old.keepers }
        ensures clean { MatchResult result (λ _. Synced (huts_of self.new) at) (λ _. Unit {0}) }
    {
        self.keepers[at].sync()?;
        Ok(Done::Synced)
    }

    // A guest with a slip comes, and is served or not: all that it is shown is synced.
    pub(crate) fn visit(&mut self, at: usize, slip: Vector) -> Result<Done, Unplayed>
        requires { at < vec_len self.old.keepers }
        ensures answer { MatchResult result (Told (huts_of self.old) at 0 (acts.Visit slip)) (λ e. elim e [ Memory ↦ ⊥ | Refused w ↦ Denied (huts_of self.old) at 0 (acts.Visit slip) w | Failed f ↦ Never (huts_of self.old) ]) }
        ensures kept { MatchResult result (λ _. Turns (huts_of self.old) (huts_of self.new) at synced) (Unmoved (huts_of self.old) (huts_of self.new) at synced) }
        ensures letters { self.new.letters ≡ self.old.letters }
        ensures many { vec_len self.new.keepers ≡ vec_len self.old.keepers }
    {
        let keeper = &mut self.keepers[at];
        keeper.sync()?;
        let replica = keeper.shown().ok_or(Fault::Shut)?;
        Ok(Done::Visited(replica.serve(slip)?))
    }

    // The replica crashes, and is opened again: of what was not synced the first bytes are left, so many of them.
    pub(crate) fn crash(&mut self, at: usize, left: usize) -> Done
        requires { at < vec_len self.old.keepers }
        ensures answer { Told (huts_of self.old) at 0 (acts.Crash left) result }
        ensures kept { Turns (huts_of self.old) (huts_of self.new) at (reopens left) }
        ensures letters { self.new.letters ≡ self.old.letters }
        ensures many { vec_len self.new.keepers ≡ vec_len self.old.keepers }
    {
        let cut = self.keepers[at].crash(left);
        Done::Crashed { cut }
    }
}
