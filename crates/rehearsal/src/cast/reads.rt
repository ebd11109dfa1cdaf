// What is shown of a rehearsal.
ghost use Rattle.std.specs.Prelude.{◌≡◌, ◌<◌, ◌≤◌, ◌⊎◌, ℕ, [], get_or, vec_len, MatchOption};
ghost use Rattle.network.specs.Casts.{Absent};
ghost use Rattle.network.specs.Stages.{Synced, Unsynced, bytes_sent, huts_of, state_at};
ghost use Rattle.rehearsal.specs.Carrying.{PlacedAt};
ghost use Rattle.replica.specs.Views.{state_of};

use super::Cast;
use network::outcome::Outcome;
use replica::replica::Replica;

impl Cast {
    // The replica of the hut that is meant, to be shown: none where something of it is not synced, and just there.
    pub fn meant(&self) -> Option<&Replica>
        ensures { MatchOption result
            (Unsynced (huts_of self.now.rehearsal.stage) self.now.current)
            (λ p. (state_of p.now ≡ state_at (huts_of self.now.rehearsal.stage) self.now.current) × Synced (huts_of self.now.rehearsal.stage) self.now.current) }
    {
        self.rehearsal.shown(self.current)
    }

    // A hut's replica, to be shown: none where it is none of them, or something of it is not synced, and just there.
    pub fn replica(&self, hut: u64) -> Option<&Replica>
        ensures { MatchOption result
            (Absent hut (huts_of self.now.rehearsal.stage)
            ⊎ ((p : ℕ) × PlacedAt (huts_of self.now.rehearsal.stage) hut p × Unsynced (huts_of self.now.rehearsal.stage) p))
            (λ r. (p : ℕ) × PlacedAt (huts_of self.now.rehearsal.stage) hut p × (state_of r.now ≡ state_at (huts_of self.now.rehearsal.stage) p) × Synced (huts_of self.now.rehearsal.stage) p) }
    {
        self.rehearsal.shown(self.rehearsal.find(hut)?)
    }

    // What came of the entries of the letter that came last, in its order.
    pub fn outcomes(&self) -> &[Outcome]
        ensures { result.now ≡ self.now.rehearsal.stage.report.outcomes.items }
    {
        self.rehearsal.outcomes()
    }

    // How many of its entries were kept out; nothing where it was damaged, and kept out whole.
    pub fn rejected(&self) -> Option<usize>
        ensures { result ≡ self.now.rehearsal.stage.report.rejected }
    {
        self.rehearsal.rejected()
    }

    // The bytes of a letter, by its place among all that were written.
    pub fn letter(&self, letter: usize) -> Option<&[u8]>
        ensures { MatchOption result
            (vec_len self.now.rehearsal.stage.letters ≤ letter)
            (λ bs. (letter < vec_len self.now.rehearsal.stage.letters) × (bs.now ≡ get_or (bytes_sent self.now.rehearsal.stage) letter [])) }
    {
        self.rehearsal.letter(letter)
    }
}
