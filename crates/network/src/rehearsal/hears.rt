// Bytes come from elsewhere.
ghost use Rattle.std.specs.Prelude.{◌≡◌, ℕ, ◌<◌, ◌≤◌, ◌⊎◌, [], Bool, true, false, Err, List, get_or, is_ok, vec_len, MatchResult};
ghost use Rattle.bookings.specs.declared.refusal.Refusal.TheVariants.{OutOfRange};
ghost use Rattle.journal.specs.History.{Kept};
ghost use Rattle.letters.specs.Letters.{damaged, read_letter};
ghost use Rattle.network.specs.Net.{Event, put};
ghost use Rattle.network.specs.Reached.{Promises};
ghost use Rattle.network.specs.Stages.{Follows, SameHuts, Unwritten, bytes_sent, hut_at, huts_of};
ghost use Rattle.network.specs.Stands.{Forged, Heard, Stands};
ghost use Rattle.network.specs.Taking.{Reports, take_bytes};
ghost use Rattle.network.specs.declared.act.Done.TheVariants.{Taken};
ghost use Rattle.network.specs.declared.unplayed.Unplayed.TheVariants.{Memory, Refused, Failed};

use super::Rehearsal;
use crate::act::Done;
use crate::unplayed::Unplayed;
use bookings::refusal::Refusal;

impl Rehearsal {
    // Any bytes come to the replica at a place; refused where there is none (2). A letter that none of the huts wrote is beyond what is promised.
    pub fn hear(&mut self, at: usize, bytes: &[u8]) -> Result<Done, Unplayed>
        ensures absent { vec_len self.old.stage.keepers ≤ at → (result ≡ Err (Refused OutOfRange)) × (self.new.stage ≡ self.old.stage) × (self.new.forged ≡ self.old.forged) }
        ensures answer { at < vec_len self.old.stage.keepers → MatchResult result (λ d. d ≡ Taken) (λ e. elim e [ Memory ↦ ⊥ | Refused w ↦ ⊥ | Failed f ↦ ⊥ ]) }
        ensures taken { (kept : ℕ → Kept) → at < vec_len self.old.stage.keepers → Follows (huts_of self.old.stage) kept
            → Follows (huts_of self.new.stage) (put (hut_at (huts_of self.old.stage) at) (take_bytes bytes.now (kept (hut_at (huts_of self.old.stage) at))) kept)
            × Reports self.new.stage.report (read_letter bytes.now) (kept (hut_at (huts_of self.old.stage) at)) }
        ensures letters { self.new.stage.letters ≡ self.old.stage.letters }
        ensures places { SameHuts (huts_of self.old.stage) (huts_of self.new.stage) }
        ensures many { vec_len self.new.stage.keepers ≡ vec_len self.old.stage.keepers }
        ensures steps { (es : List Event) → at < vec_len self.old.stage.keepers → Stands self.old.stage es → Heard self.old.stage self.new.stage at bytes.now es }
        ensures honest { self.old.forged ≡ false → read_letter bytes.now ≡ damaged → self.new.forged ≡ false }
        ensures written { self.old.forged ≡ false → (Unwritten (bytes_sent self.old.stage) bytes.now → ⊥) → self.new.forged ≡ false }
        ensures forged { at < vec_len self.old.stage.keepers → (self.old.forged ≡ true) ⊎ Forged (bytes_sent self.old.stage) bytes.now → self.new.forged ≡ true }
        ensures promised { self.new.forged ≡ false → Promises self.new.stage }
    {
        if at >= self.stage.keepers.len() {
            return Err(Unplayed::Refused(Refusal::OutOfRange));
        }
        let written = self.stage.find(bytes).is_some();
        let done = self.stage.hear(at, bytes)?;
        self.forged |= !(written | self.stage.report.is_damaged());
        Ok(done)
    }
}
