// How many bytes a letter takes, before it is written.
ghost use Rattle.std.specs.Prelude.{◌≡◌, ℕ, ◌+◌, ◌*◌, ◌≤◌, map, length};
ghost use Rattle.std.specs.List.{flat_map};
ghost use Rattle.bookings.specs.Plain.{plain};
ghost use Rattle.entry_log.specs.declared.waiting.TheConstants.{MAX_LETTER_ENTRIES};
ghost use Rattle.letters.specs.Format.{encode};
ghost use Rattle.letters.specs.Letters.{encode_letter};
ghost use Rattle.letters.specs.Sent.{many, plain_letter};
ghost use Rattle.letters.specs.declared.limits.TheConstants.{ENTRY_ROOM, LETTER_ROOM, WAITING_ROOM};

use crate::coded::Coded;
use crate::limits::EMPTY_LETTER_BYTES;
use bookings::entry::{Entry, Kind};
use entry_log::waiting::Waiting;

pub(crate) fn entry_size(entry: &Entry) -> usize
    ensures value { result ≡ length (encode (plain «entry».now)) }
    ensures small { result ≤ ENTRY_ROOM }
{
    match &entry.kind {
        Kind::Book { choices, .. } => 11 + 5 * usize::from(choices.count),
        Kind::Cancel { .. } => 11,
        Kind::Change { choices, .. } => 12 + 5 * usize::from(choices.count),
        Kind::Beds { .. } => 11,
    }
}

// The bytes of some values.
fn sizes<V: Coded>(values: &[V]) -> usize
    requires { length values.now ≤ MAX_LETTER_ENTRIES }
    ensures value { result ≡ length (flat_map V.encoding (map V.plain values.now)) }
    ensures small { result ≤ WAITING_ROOM * length values.now }
{
    // `map(..).sum()` was tried: the check finds neither the total nor the bound of each by itself, and an invariant says both.
    let mut sum = 0;
    for value in values {
        sum += value.size();
    }
    sum
}

// The length of a letter, wherever its first committed entry stands.
pub(crate) fn letter_length(committed: &[Entry], tentative: &[Waiting]) -> usize
    requires { many committed.now tentative.now ≤ MAX_LETTER_ENTRIES }
    ensures value { (place : ℕ) → result ≡ length (encode_letter (plain_letter place committed.now tentative.now)) }
    ensures small { result ≤ LETTER_ROOM }
{
    EMPTY_LETTER_BYTES + sizes(committed) + sizes(tentative)
}
