// What a rehearsal shows.
ghost use Rattle.std.specs.Prelude.{◌≡◌, ◌<◌, ◌≤◌, ◌⊎◌, [], get_or, vec_len, MatchOption};
ghost use Rattle.network.specs.Casts.{Absent};
ghost use Rattle.network.specs.Stages.{Synced, Unsynced, bytes_sent, hut_at, huts_of, state_at};
ghost use Rattle.replica.specs.Views.{state_of};

use super::Rehearsal;
use super::makes::place_of;
use crate::outcome::Outcome;
use replica::replica::Replica;

impl Rehearsal {
    // The place of a hut.
    pub fn find(&self, hut: u64) -> Option<usize>
        ensures { MatchOption result (Absent hut (huts_of self.now.stage)) (λ p. (p < vec_len self.now.stage.keepers) × (hut_at (huts_of self.now.stage) p ≡ hut)) }
    {
        place_of(self.stage.keepers.as_slice(), hut)
    }

    // The replica at a place, to be shown: none where there is none, or where something of it is not synced, and just there.
    pub fn shown(&self, at: usize) -> Option<&Replica>
        ensures { MatchOption result ((vec_len self.now.stage.keepers ≤ at) ⊎ Unsynced (huts_of self.now.stage) at) (λ p. (state_of p.now ≡ state_at (huts_of self.now.stage) at) × (at < vec_len self.now.stage.keepers) × Synced (huts_of self.now.stage) at) }
    {
        self.stage.keepers.get(at)?.shown()
    }

    // The bytes of a letter.
    pub fn letter(&self, letter: usize) -> Option<&[u8]>
        ensures { MatchOption result (vec_len self.now.stage.letters ≤ letter) (λ bs. (letter < vec_len self.now.stage.letters) × (bs.now ≡ get_or (bytes_sent self.now.stage) letter [])) }
    {
        Some(self.stage.letters.get(letter)?.as_slice())
    }

    // What came of the entries of the letter that came last, in its order.
    pub fn outcomes(&self) -> &[Outcome]
        ensures { result.now ≡ self.now.stage.report.outcomes.items }
    {
        self.stage.report.outcomes()
    }

    // How many of its entries were kept out; nothing where it was damaged, and kept out whole.
    pub fn rejected(&self) -> Option<usize>
        ensures { result ≡ self.now.stage.report.rejected }
    {
        self.stage.report.rejected
    }
}
