// The states that a replica was in: after no step, after the first, and so on.
use crate::Table;
use crate::script::{Step, play};
use anyhow::anyhow;
use bookings::limits::{HUTS, NIGHTS};
use journal::appender::Appender;
use journal::journal::Journal;
use journal::keeper::Keeper;
use journal::memory::{JOURNAL_ROOM, Memory};
use replica::replica::Replica;
use std::alloc::Global;

// A replica over a journal in memory.
pub type Played = Keeper<Appender<Memory>>;

// A replica over an empty journal in memory, that has played some steps.
pub fn played(heap: Global, steps: &[Step]) -> anyhow::Result<Played> {
    let memory = Memory::new(heap, JOURNAL_ROOM)?;
    let opened = Keeper::open(heap, 0, memory, &[]).map_err(|_| anyhow!("not opened"))?;
    let mut keeper = opened.keeper;
    play(&mut keeper, steps)?;
    Ok(keeper)
}

fn is_same_hut(one: &Replica, other: &Replica, hut: u64) -> bool {
    (0..NIGHTS as u64).all(|night| one.night(hut, night) == other.night(hut, night))
}

fn is_same_book(one: &Replica, other: &Replica) -> bool {
    (0..HUTS as u64).all(|hut| is_same_hut(one, other, hut))
}

// Whether two replicas have the same log, with as many committed, the same vector and the same book. Replicas have no `==`, what they show has.
fn is_same(one: &Replica, other: &Replica) -> bool {
    one.summary() == other.summary() && one.entries() == other.entries() && is_same_book(one, other)
}

impl<'a> Table<'a> {
    pub fn new(rt: &'a HostRuntime, steps: &'a [Step]) -> anyhow::Result<Table<'a>> {
        let mut states = Vec::with_capacity(rt.alloc(), 16)?;
        for count in 0..=steps.len() {
            let mut keeper = played(rt.alloc(), &steps[0..count])?;
            keeper.sync().map_err(|_| anyhow!("not synced"))?;
            states.push(keeper)?;
        }
        Ok(Table { rt, steps, states })
    }

    // After which step, from some step on, a replica was as this one is.
    pub fn find(&self, from: usize, replica: &Replica) -> Option<usize> {
        self.states
            .iter()
            .enumerate()
            .skip(from)
            .find(|(_, keeper)| keeper.shown().is_some_and(|state| is_same(state, replica)))
            .map(|(step, _)| step)
    }
}
