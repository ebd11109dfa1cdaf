// A letter cut at each byte, and letters of as many entries as there may be.
use crate::{Table, booking};
use bookings::entry::Entry;
use entry_log::vector::Vector;
use entry_log::waiting::Waiting;
use letters::letter::Letter;
use letters::writer::{LETTER_ROOM, write_letter};

// How many of the cuts of some bytes are damaged.
fn damaged_cuts(bytes: &[u8]) -> usize {
    (0..bytes.len())
        .filter(|end| Letter::open(&bytes[..*end]).is_err())
        .count()
}

// How many entries are read of a letter. One that is damaged has none to read.
fn read(bytes: &[u8]) -> usize {
    // `map_or(0, Letter::count)` was tried: the check does not find by itself what `count` asks of a letter.
    Letter::open(bytes).map_or(0, |letter| {
        letter.fold(0usize, |count, _| count.saturating_add(1))
    })
}

impl<'a, P: Print> Table<'a, P> {
    // A letter of two committed entries and a tentative one, cut at each byte.
    pub fn cuts(&self) -> anyhow::Result<()> {
        let waiting = Waiting {
            entry: booking(3)?,
            stood: Vector::new([0, 2, 0, 0, 0, 0, 0, 0, 0, 0, 0, 0, 0, 0, 0, 0]),
        };
        let bytes = self.letter(4294967295, &[booking(1)?, booking(2)?], &[waiting])?;
        self.row("three entries", bytes.as_slice())?;
        let damaged = damaged_cuts(bytes.as_slice());
        let length = bytes.len();
        let out = self.out;
        println!(out; "of {length} cuts {damaged} are damaged")?;
        Ok(())
    }

    // So many bookings.
    fn many(&self, count: u32) -> anyhow::Result<Vec<Entry>> {
        let mut entries = Vec::with_capacity(self.heap, 1025)?;
        for stamp in 1..=count {
            entries.push(booking(stamp)?)?;
        }
        Ok(entries)
    }

    // Writes so many committed entries, and one tentative one, into a buffer with room for so many bytes.
    fn written(&self, count: u32, room: usize) -> anyhow::Result<()> {
        let entries = self.many(count)?;
        let waiting = Waiting {
            entry: booking(1)?,
            stood: Vector::zero(),
        };
        let mut bytes = Vec::with_capacity(self.heap, room)?;
        let out = self.out;
        // That they are not written is what the row tells, and no error of the program.
        match write_letter(0, entries.as_slice(), &[waiting], &mut bytes) {
            Ok(()) => {
                let length = bytes.len();
                let count = read(bytes.as_slice());
                println!(out; "{length} bytes, {count} entries read")?;
            }
            Err(_) => println!(out; "{count} and 1 entries are not written")?,
        }
        Ok(())
    }

    pub fn full(&self) -> anyhow::Result<()> {
        self.written(1023, LETTER_ROOM)?;
        self.written(1024, LETTER_ROOM)?;
        self.written(1, 137)?;
        self.written(1, 136)
    }
}
