// Letters are written, and come to the replica at a place.
ghost use Rattle.std.specs.Prelude.{◌≡◌, ℕ, ◌<◌, length, ◌∷◌, [], ◌++◌, get_or, vec_len, MatchOption, MatchResult};
ghost use Rattle.bookings.specs.Refusals.{number_of};
ghost use Rattle.journal.specs.History.{Kept, synced};
ghost use Rattle.letters.specs.Laws.{LetterOk};
ghost use Rattle.letters.specs.Letters.{read_letter};
ghost use Rattle.network.specs.Stages.{Follows, Turns, Unmoved, Never, huts_of, hut_at, state_at, bytes_sent, bytes_for, part_of, Unwritten};
ghost use Rattle.network.specs.Taking.{Reports, take_bytes, letter_for};
ghost use Rattle.network.specs.declared.act.Done.TheVariants as dones;
ghost use Rattle.network.specs.declared.unplayed.Unplayed.TheVariants.{Memory, Refused, Failed};

use super::Stage;
use crate::act::Done;
use crate::takes::take;
use crate::unplayed::Unplayed;
use crate::writes::letter_for;
use bookings::refusal::Refusal;
use replica::summary::Summary;
use std::alloc::Global;

// All of some bytes, or the first of them.
fn part_of(bytes: &[u8], part: Option<usize>) -> &[u8]
    ensures { result.now ≡ part_of part bytes.now }
{
    match part {
        Some(count) => &bytes[..count.min(bytes.len())],
        None => bytes,
    }
}

impl Stage {
    // The first letter with these bytes.
    pub(crate) fn find(&self, bytes: &[u8]) -> Option<usize>
        ensures { MatchOption result (Unwritten (bytes_sent self.now) bytes.now) (λ i. (i < length (bytes_sent self.now)) × (get_or (bytes_sent self.now) i [] ≡ bytes.now)) }
    {
        self.letters
            .iter()
            .position(|letter| letter.as_slice() == bytes)
    }

    // A letter is written for one that says to have that, and all that is in it is synced; says which letter it is, from 0.
    pub(crate) fn write(&mut self, heap: Global, at: usize, has: &Summary) -> Result<Done, Unplayed>
        requires { at < vec_len self.old.keepers }
        ensures letters { MatchResult result
            (λ d. (d ≡ dones.Written (vec_len self.old.letters))
            × (bytes_sent self.new ≡ bytes_sent self.old ++ bytes_for self.old at has.now.committed has.now.vector.stamps ∷ [])
            × LetterOk (letter_for has.now.committed has.now.vector.stamps (state_at (huts_of self.old) at)))
            (λ _. bytes_sent self.new ≡ bytes_sent self.old) }
        ensures kept { MatchResult result (λ _. Turns (huts_of self.old) (huts_of self.new) at synced) (Unmoved (huts_of self.old) (huts_of self.new) at (λ k. k)) }
        ensures many { vec_len self.new.keepers ≡ vec_len self.old.keepers }
        ensures unrefused { MatchResult result (λ _. Unit {0}) (λ e. elim e [ Memory ↦ Unit {0} | Refused w ↦ ⊥ | Failed f ↦ Never (huts_of self.old) ]) }
    {
        self.letters.reserve(1)?;
        self.page.clear();
        letter_for(&mut self.keepers[at], has, &mut self.parcel, &mut self.page)?;
        let letter = Vec::from_slice(heap, self.page.as_slice())?;
        let number = self.letters.len();
        self.letters.push_reserved(letter);
        Ok(Done::Written(number))
    }

    // A letter comes, or its first bytes, so many of them; refused where there is no such letter (2).
    pub(crate) fn take(
        &mut self,
        at: usize,
        letter: usize,
        part: Option<usize>,
    ) -> Result<Done, Unplayed>
        requires { at < vec_len self.old.keepers }
        ensures answer { MatchResult result
            (λ d. (d ≡ dones.Taken) × (letter < vec_len self.old.letters))
            (λ e. elim e [ Memory ↦ ⊥ | Refused w ↦ (number_of w ≡ 2) × (letter < vec_len self.old.letters → ⊥) | Failed f ↦ Never (huts_of self.old) ]) }
        ensures kept { MatchResult result
            (λ _. Turns (huts_of self.old) (huts_of self.new) at (take_bytes (part_of part (get_or (bytes_sent self.old) letter []))))
            (Unmoved (huts_of self.old) (huts_of self.new) at (λ k. k)) }
        ensures report { MatchResult result
            (λ _. (kept : ℕ → Kept) → Follows (huts_of self.old) kept
            → Reports self.new.report (read_letter (part_of part (get_or (bytes_sent self.old) letter []))) (kept (hut_at (huts_of self.old) at)))
            (λ _. Unit {0}) }
        ensures letters { self.new.letters ≡ self.old.letters }
        ensures many { vec_len self.new.keepers ≡ vec_len self.old.keepers }
    {
        if letter >= self.letters.len() {
            return Err(Unplayed::Refused(Refusal::OutOfRange));
        }
        let bytes = self.letters[letter].as_slice();
        take(
            &mut self.keepers[at],
            part_of(bytes, part),
            &mut self.report,
        )?;
        Ok(Done::Taken)
    }

    // Bytes from elsewhere come.
    pub(crate) fn hear(&mut self, at: usize, bytes: &[u8]) -> Result<Done, Unplayed>
        requires { at < vec_len self.old.keepers }
        ensures answer { MatchResult result (λ d. d ≡ dones.Taken) (λ e. elim e [ Memory ↦ ⊥ | Refused w ↦ ⊥ | Failed f ↦ Never (huts_of self.old) ]) }
        ensures kept { MatchResult result (λ _. Turns (huts_of self.old) (huts_of self.new) at (take_bytes bytes.now)) (Unmoved (huts_of self.old) (huts_of self.new) at (λ k. k)) }
        ensures report { MatchResult result
            (λ _. (kept : ℕ → Kept) → Follows (huts_of self.old) kept → Reports self.new.report (read_letter bytes.now) (kept (hut_at (huts_of self.old) at)))
            (λ _. Unit {0}) }
        ensures letters { self.new.letters ≡ self.old.letters }
        ensures many { vec_len self.new.keepers ≡ vec_len self.old.keepers }
    {
        take(&mut self.keepers[at], bytes, &mut self.report)?;
        Ok(Done::Taken)
    }
}
