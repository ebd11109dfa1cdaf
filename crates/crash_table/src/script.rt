// What is played: makes and commits, which are synced, and takes, which are not.
use anyhow::anyhow;
use bookings::entry::{Choice, Choices, Entry, Kind, Mark, Stay, Supply};
use bookings::refusal::Refusal;
use entry_log::vector::Vector;
use journal::journal::Journal;
use journal::keeper::Keeper;
use journal::trouble::Trouble;
use std::alloc::Global;

#[derive(Clone, Copy)]
pub enum Step {
    Make(Kind),
    Commit,
    Tentative(Entry),
    // With its place.
    Committed(usize, Entry),
}

impl Step {
    // Whether all is synced behind it.
    pub fn is_synced(&self) -> bool {
        matches!(self, Step::Make(_) | Step::Commit)
    }
}

// The choices with 20 beds of one hut more.
fn with(choices: Choices, hut: u64) -> Result<Choices, Refusal> {
    let stay = Stay::new(hut, 9, 2)?;
    choices.with(Choice::new(stay, 20)?)
}

fn book(guest: u32, choices: Choices) -> Kind {
    Kind::Book { guest, choices }
}

fn entry(stamp: u64, hut: u64, kind: Kind) -> Result<Entry, Refusal> {
    let mark = Mark::new(stamp, hut)?;
    Ok(Entry { mark, kind })
}

// At hut 0.
pub fn script(heap: Global) -> anyhow::Result<Vec<Step>> {
    let five = with(Choices::none(), 5)?;
    let six = with(Choices::none(), 6)?;
    let supply = Supply::new(Stay::new(6, 9, 2)?, 30)?;
    let first = entry(1, 1, book(8, five))?;
    let cancel = entry(2, 2, Kind::Cancel { mark: first.mark })?;
    let beds = entry(4, 3, Kind::Beds { supply })?;
    let second = entry(5, 4, book(9, with(six, 5)?))?;
    let other = entry(6, 5, Kind::Cancel { mark: second.mark })?;
    let change = Kind::Change {
        mark: Mark::new(1, 0)?,
        choices: six,
    };
    let mut steps = Vec::with_capacity(heap, 9)?;
    steps.push(Step::Make(book(7, five)))?;
    steps.push(Step::Tentative(first))?;
    steps.push(Step::Tentative(cancel))?;
    steps.push(Step::Commit)?;
    steps.push(Step::Make(change))?;
    steps.push(Step::Tentative(beds))?;
    steps.push(Step::Committed(1, first))?;
    steps.push(Step::Committed(2, second))?;
    steps.push(Step::Tentative(other))?;
    Ok(steps)
}

fn play_step<J: Journal + Drop>(keeper: &mut Keeper<J>, step: &Step) -> Result<(), Trouble> {
    match step {
        Step::Make(kind) => {
            keeper.make(*kind)?;
        }
        Step::Commit => {
            keeper.commit()?;
        }
        Step::Tentative(entry) => keeper.take_tentative(*entry, &Vector::zero())?,
        Step::Committed(place, entry) => keeper.take_committed(*place, *entry)?,
    }
    Ok(())
}

// Plays some steps.
pub fn play<J: Journal + Drop>(keeper: &mut Keeper<J>, steps: &[Step]) -> anyhow::Result<()> {
    for step in steps {
        play_step(keeper, step).map_err(|_| anyhow!("a step was not done"))?;
    }
    Ok(())
}
