// Writing an entry into a buffer that has room for it.
ghost use Rattle.std.specs.Prelude.{◌^◌, ◌<◌, map};
ghost use Rattle.std.specs.List.{flat_map};
ghost use Rattle.bookings.specs.Plain.{plain_mark, plain_stay, plain_choices, plain_kind, plain};
ghost use Rattle.bookings.specs.Ranges.{Each};
ghost use Rattle.letters.specs.Buffers.{Room, Written};
ghost use Rattle.letters.specs.Laws.{KindFits, EntryOk};
ghost use Rattle.letters.specs.Format.{encode_mark, encode_choice, encode_choices, encode_kind, encode};

use crate::coded::Coded;
use bookings::entry::{Choices, Entry, Kind, Mark, Stay};

mod lengths;
mod letters;

pub use crate::limits::LETTER_ROOM;
pub(crate) use lengths::entry_size;
pub use letters::write_letter;

// Puts bytes behind those of the buffer.
pub fn put(out: &mut Vec<u8>, part: &[u8])
    requires { Room out.old part.now }
    ensures { Written out.old out.new part.now }
{
    // Byte by byte: `extend_from_slice` does not say that the memory stays the same, which `Written` does.
    for byte in part {
        out.push_reserved(*byte);
    }
}

// Puts values one behind the other.
pub(crate) fn put_all<V: Coded>(out: &mut Vec<u8>, values: &[V])
    requires { Room out.old (flat_map V.encoding (map V.plain values.now)) }
    ensures written { Written out.old out.new (flat_map V.encoding (map V.plain values.now)) }
    ensures fits { Each V.Fits (map V.plain values.now) }
{
    for value in values {
        value.write(out);
    }
}

fn put_mark(out: &mut Vec<u8>, mark: Mark)
    requires { Room out.old (encode_mark (plain_mark mark)) }
    ensures written { Written out.old out.new (encode_mark (plain_mark mark)) }
    ensures fits { mark.stamp < 2 ^ 32 }
{
    let [a, b, c, d] = mark.stamp.to_be_bytes();
    put(out, &[a, b, c, d, mark.hut]);
}

// A stay and a number of beds.
pub(crate) fn put_choice(out: &mut Vec<u8>, stay: Stay, beds: u8)
    requires { Room out.old (encode_choice (record { stay = plain_stay stay; beds = beds })) }
    ensures { Written out.old out.new (encode_choice (record { stay = plain_stay stay; beds = beds })) }
{
    let [high, low] = stay.night.to_be_bytes();
    put(out, &[stay.hut, high, low, stay.nights, beds]);
}

fn put_choices(out: &mut Vec<u8>, choices: &Choices)
    requires { Room out.old (encode_choices (plain_choices choices.now)) }
    ensures { Written out.old out.new (encode_choices (plain_choices choices.now)) }
{
    put(out, &[choices.count]);
    put_all(out, choices.as_slice());
}

fn put_kind(out: &mut Vec<u8>, kind: &Kind)
    requires { Room out.old (encode_kind (plain_kind kind.now)) }
    ensures written { Written out.old out.new (encode_kind (plain_kind kind.now)) }
    ensures fits { KindFits (plain_kind kind.now) }
{
    match kind {
        Kind::Book { guest, choices } => {
            let [a, b, c, d] = guest.to_be_bytes();
            put(out, &[1, a, b, c, d]);
            put_choices(out, choices);
        }
        Kind::Cancel { mark } => {
            put(out, &[2]);
            put_mark(out, *mark);
        }
        Kind::Change { mark, choices } => {
            put(out, &[3]);
            put_mark(out, *mark);
            put_choices(out, choices);
        }
        Kind::Beds { supply } => {
            put(out, &[4]);
            put_choice(out, supply.stay, supply.beds);
        }
    }
}

// Puts an entry behind the bytes of a buffer that has room for it.
pub fn write_entry(out: &mut Vec<u8>, entry: &Entry)
    requires { Room out.old (encode (plain «entry».now)) }
    ensures written { Written out.old out.new (encode (plain «entry».now)) }
    ensures fits { EntryOk (plain «entry».now) }
{
    put_mark(out, entry.mark);
    put_kind(out, &entry.kind);
}
