// Writing a letter into a buffer of the caller's.
ghost use Rattle.std.specs.Prelude.{◌≡◌, ◌+◌, ◌^◌, ◌<◌, ◌≤◌, true, ◌∷◌, map, length, is_ok, if◌then◌else◌, vec_len, vec_capacity, MatchResult, OnOk, nat_eq};
ghost use Rattle.std.specs.List.{flat_map};
ghost use Rattle.bookings.specs.Plain.{plain};
ghost use Rattle.bookings.specs.Ranges.{Each};
ghost use Rattle.entry_log.specs.Waits.{plain_waiting};
ghost use Rattle.letters.specs.Buffers.{Room, Written};
ghost use Rattle.letters.specs.Format.{encode, four};
ghost use Rattle.letters.specs.Laws.{EntryOk, WaitingOk, LetterOk};
ghost use Rattle.letters.specs.Letters.{encode_waiting, encode_body, encode_letter};
ghost use Rattle.letters.specs.declared.limits.TheConstants.{LETTER_ROOM};
ghost use Rattle.letters.specs.declared.unwritten.Unwritten.TheVariants.{TooMany, NoRoom};
ghost use Rattle.letters.specs.Sent.{many, plain_letter, letter_of};

use super::lengths::letter_length;
use super::{put, put_all};
use crate::unwritten::Unwritten;
use bookings::entry::Entry;
use entry_log::waiting::{MAX_LETTER_ENTRIES, Waiting};

// The letter's bytes before its digest.
fn put_body(out: &mut Vec<u8>, place: u32, committed: &[Entry], tentative: &[Waiting])
    requires few { many committed.now tentative.now ≤ MAX_LETTER_ENTRIES }
    requires room { Room out.old (66 ∷ encode_body (plain_letter place committed.now tentative.now)) }
    ensures written { Written out.old out.new (66 ∷ encode_body (plain_letter place committed.now tentative.now)) }
    ensures fits { LetterOk (plain_letter place committed.now tentative.now) }
{
    // There are at most `MAX_LETTER_ENTRIES` of each, so that `as` loses nothing, which the check proves.
    let [high, low] = (committed.len() as u16).to_be_bytes();
    let [a, b, c, d] = place.to_be_bytes();
    put(out, &[66, high, low, a, b, c, d]);
    put_all(out, committed);
    put(out, &(tentative.len() as u16).to_be_bytes());
    put_all(out, tentative);
}

// The place of the first committed entry; 0 if there is none.
fn place_of(place: u32, committed: &[Entry]) -> u32
    ensures { result ≡ (if nat_eq (length committed.now) 0 then 0 else place) }
{
    if committed.is_empty() { 0 } else { place }
}

// Puts a letter behind the bytes of a buffer, in the memory that it has. Its two slices stay two arguments: a struct would lengthen each clause.
pub fn write_letter(
    place: u32,
    committed: &[Entry],
    tentative: &[Waiting],
    out: &mut Vec<u8>,
) -> Result<(), Unwritten>
    ensures written { MatchResult result
        (λ _. Written out.old out.new (encode_letter (letter_of place committed.now tentative.now)))
        (λ _. out.new ≡ out.old) }
    ensures lawful { OnOk result (LetterOk (letter_of place committed.now tentative.now)) }
    ensures refused { MatchResult result
        (λ _. many committed.now tentative.now ≤ MAX_LETTER_ENTRIES)
        (λ e. elim e [
          | TooMany ↦ MAX_LETTER_ENTRIES < many committed.now tentative.now
          | NoRoom ↦ (many committed.now tentative.now ≤ MAX_LETTER_ENTRIES) × (Room out.old (encode_letter (letter_of place committed.now tentative.now)) → ⊥)
        ]) }
    ensures enough { vec_len out.old + LETTER_ROOM ≤ vec_capacity out.old → many committed.now tentative.now ≤ MAX_LETTER_ENTRIES → is_ok result ≡ true }
{
    if committed.len() > MAX_LETTER_ENTRIES
        || tentative.len() > MAX_LETTER_ENTRIES - committed.len()
    {
        return Err(Unwritten::TooMany);
    }
    let start = out.len();
    if out.capacity() - start < letter_length(committed, tentative) {
        return Err(Unwritten::NoRoom);
    }
    put_body(out, place_of(place, committed), committed, tentative);
    let sum = digest::sha256(&out.as_slice()[start..]);
    put(out, &sum);
    Ok(())
}
