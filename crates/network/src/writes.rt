// A letter is written for a replica that has what a summary says.
ghost use Rattle.std.specs.Prelude.{◌≡◌, ◌+◌, ◌^◌, ◌<◌, ◌≤◌, Bool, true, false, is_ok, vec_len, vec_capacity, MatchResult, OnOk};
ghost use Rattle.journal.specs.History.{Kept, synced};
ghost use Rattle.journal.specs.Keeping.{InStep, Moves, Fails, state_by};
ghost use Rattle.letters.specs.Buffers.{Written};
ghost use Rattle.letters.specs.Laws.{LetterOk};
ghost use Rattle.letters.specs.Letters.{encode_letter};
ghost use Rattle.letters.specs.declared.limits.TheConstants.{LETTER_ROOM};
ghost use Rattle.network.specs.Taking.{letter_for};
ghost use Rattle.network.specs.declared.unsent.Unsent.TheVariants.{Failed, NoRoom};

use crate::unsent::Unsent;
use journal::journal::Journal;
use journal::keeper::Keeper;
use letters::writer::write_letter;
use replica::parcel::Parcel;
use replica::summary::Summary;

// A place that a letter can hold; none is so high that an entry stands there.
fn place_from(committed: usize) -> u32
    ensures { committed < 2 ^ 32 → result ≡ committed }
{
    u32::try_from(committed).unwrap_or(0)
}

// Syncs, and puts a letter for one that has what a summary says behind the bytes of a buffer, in the memory that it has.
pub fn letter_for<J: Journal + Drop>(
    keeper: &mut Keeper<J>,
    has: &Summary,
    parcel: &mut Parcel,
    out: &mut Vec<u8>,
) -> Result<(), Unsent>
    ensures written { MatchResult result
        (λ _. Written out.old out.new (encode_letter (letter_for has.now.committed has.now.vector.stamps (state_by keeper.old))))
        (λ _. out.new ≡ out.old) }
    ensures lawful { OnOk result (LetterOk (letter_for has.now.committed has.now.vector.stamps (state_by keeper.old))) }
    ensures kept { MatchResult result
        (λ _. Moves J.Journal.keeps keeper.old keeper.new synced)
        (λ e. elim e [ Failed f ↦ Fails J.Journal.keeps J.Journal.finds keeper.old keeper.new (λ k. k) | NoRoom ↦ (vec_len out.old + LETTER_ROOM ≤ vec_capacity out.old → ⊥) ]) }
    ensures room { J.Journal.room keeper.old.journal ≤ J.Journal.room keeper.new.journal }
    ensures sure { (k : Kept) → InStep J.Journal.keeps keeper.old k → 0 < J.Journal.room keeper.old.journal → vec_len out.old + LETTER_ROOM ≤ vec_capacity out.old → is_ok result ≡ true }
{
    keeper.sync()?;
    // All is synced now, so the replica is shown.
    let replica = keeper.shown().ok_or(Unsent::NoRoom)?;
    replica.hand_on(has, parcel);
    let place = place_from(has.committed);
    // A parcel never has too many entries for a letter, so there is no room.
    write_letter(place, parcel.committed(), parcel.tentative(), out).map_err(|_| Unsent::NoRoom)
}
