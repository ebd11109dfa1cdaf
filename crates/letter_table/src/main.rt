// A table of letters: the examples of docs/RULES.md, one damaged letter for each reason, one entry out of range for each number, cuts, and full letters.
#![tactic(auto)]

mod forms;
mod full;
mod ranges;

use bookings::entry::{Choice, Choices, Entry, Kind, Mark, Stay};
use bookings::refusal::Refusal;
use entry_log::vector::Vector;
use entry_log::waiting::Waiting;
use letters::letter::{Item, Letter};
use letters::writer::{LETTER_ROOM, write_letter};
use std::alloc::Global;

// Hut 1 books 20 beds of hut 5 on night 9 for guest 7.
pub fn booking(stamp: u32) -> Result<Entry, Refusal> {
    let mark = Mark::new(u64::from(stamp), 1)?;
    let stay = Stay::new(5, 9, 1)?;
    let choices = Choices::none().with(Choice::new(stay, 20)?)?;
    let kind = Kind::Book { guest: 7, choices };
    Ok(Entry { mark, kind })
}

// Where the rows go, and the memory of their letters.
#[derive(Drop)]
pub struct Table<'a, P: Print> {
    out: &'a P,
    heap: Global,
}

impl<'a, P: Print> Table<'a, P> {
    // The letter of some entries.
    fn letter(
        &self,
        place: u32,
        committed: &[Entry],
        tentative: &[Waiting],
    ) -> anyhow::Result<Vec<u8>> {
        let mut out = Vec::with_capacity(self.heap, LETTER_ROOM)?;
        write_letter(place, committed, tentative, &mut out)?;
        Ok(out)
    }

    // One row: what is heard of a letter.
    fn row(&self, name: &str, bytes: &[u8]) -> anyhow::Result<()> {
        let out = self.out;
        // That it is damaged is what the row tells, and no error of the program.
        let Ok(letter) = Letter::open(bytes) else {
            println!(out; "{name}: damaged")?;
            return Ok(());
        };
        let kept_out = letter.kept_out();
        print!(out; "{name}:")?;
        let mut tentative = 0u32;
        for item in letter {
            match item {
                Item::Committed { place, entry } => {
                    let stamp = entry.mark.stamp;
                    print!(out; " {stamp} at {place},")?;
                }
                Item::Tentative(_) => tentative = tentative.saturating_add(1),
            }
        }
        println!(out; " {tentative} tentative, {kept_out} kept out")?;
        Ok(())
    }

    // The bytes of a letter, and its row.
    fn example(&self, name: &str, bytes: &[u8]) -> anyhow::Result<()> {
        let out = self.out;
        print!(out; "{name} ")?;
        for byte in bytes {
            print!(out; "{byte:02x}")?;
        }
        println!(out; "")?;
        self.row(name, bytes)
    }

    fn examples(&self) -> anyhow::Result<()> {
        let entry = booking(1)?;
        let waiting = Waiting {
            entry,
            stood: Vector::zero(),
        };
        let empty = self.letter(7, &[], &[])?;
        self.example("empty letter", empty.as_slice())?;
        let tentative = self.letter(7, &[], &[waiting])?;
        self.example("it is tentative", tentative.as_slice())?;
        let committed = self.letter(0, &[entry], &[])?;
        self.example("it is committed at 0", committed.as_slice())
    }
}

fn main(rt: HostRuntime) -> anyhow::Result<()> {
    let heap = rt.alloc();
    let table = Table { out: &rt, heap };
    table.examples()?;
    table.damaged()?;
    table.out_of_range()?;
    table.cuts()?;
    table.full()
}
