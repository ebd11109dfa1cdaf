// The values of a letter: stamps, choices, entries, and tentative entries with what stood before them.
ghost use Rattle.std.specs.Prelude.{ℕ, ◌^◌, ◌<◌};
ghost use Rattle.bookings.specs.Plain.{PlainChoice, plain_choice, PlainEntry, plain};
ghost use Rattle.bookings.specs.Ranges.{ChoiceOk};
ghost use Rattle.entry_log.specs.Waits.{PlainWaiting, plain_waiting};
ghost use Rattle.letters.specs.Format.{four, encode_choice, encode, read_four, reads};
ghost use Rattle.letters.specs.Laws.{EntryOk, WaitingOk};
ghost use Rattle.letters.specs.Letters.{encode_waiting, read_waiting};

use super::{Coded, Decoded};
use crate::limits::VECTOR_BYTES;
use crate::reader::Reader;
use crate::writer::{entry_size, put, put_all, put_choice, write_entry};
use crate::wrong::Wrong;
use bookings::entry::{Choice, Entry};
use entry_log::waiting::Waiting;

impl Coded for u32 {
    ghost Plain = { ℕ };

    ghost plain = { λ n. n };

    ghost encoding = { four };

    ghost Fits = { λ n. n < 2 ^ 32 };

    fn write(&self, out: &mut Vec<u8>) {
        put(out, &self.to_be_bytes());
    }

    fn size(&self) -> usize {
        4
    }
}

impl Decoded for u32 {
    ghost Plain = { ℕ };

    ghost plain = { λ n. n };

    ghost reading = { read_four };

    fn read(reader: &mut Reader<'_>) -> Result<u32, Wrong> {
        reader.four()
    }
}

impl Coded for Choice {
    ghost Plain = { PlainChoice };

    ghost plain = { plain_choice };

    ghost encoding = { encode_choice };

    ghost Fits = { ChoiceOk };

    fn write(&self, out: &mut Vec<u8>) {
        put_choice(out, self.stay, self.beds);
    }

    fn size(&self) -> usize {
        5
    }
}

impl Coded for Entry {
    ghost Plain = { PlainEntry };

    ghost plain = { plain };

    ghost encoding = { encode };

    ghost Fits = { EntryOk };

    fn write(&self, out: &mut Vec<u8>) {
        write_entry(out, self);
    }

    fn size(&self) -> usize {
        entry_size(self)
    }
}

impl Decoded for Entry {
    ghost Plain = { PlainEntry };

    ghost plain = { plain };

    ghost reading = { reads };

    fn read(reader: &mut Reader<'_>) -> Result<Entry, Wrong> {
        reader.entry()
    }
}

impl Coded for Waiting {
    ghost Plain = { PlainWaiting };

    ghost plain = { plain_waiting };

    ghost encoding = { encode_waiting };

    ghost Fits = { WaitingOk };

    fn write(&self, out: &mut Vec<u8>) {
        write_entry(out, &self.entry);
        put_all(out, &self.stood.stamps());
    }

    fn size(&self) -> usize {
        entry_size(&self.entry) + VECTOR_BYTES
    }
}

impl Decoded for Waiting {
    ghost Plain = { PlainWaiting };

    ghost plain = { plain_waiting };

    ghost reading = { read_waiting };

    fn read(reader: &mut Reader<'_>) -> Result<Waiting, Wrong> {
        reader.waiting()
    }
}
