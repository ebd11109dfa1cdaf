// Bytes of any kind are given to a replica, and what came of them is told.

use crate::Told;
use crate::sums::sum_of;
use crate::takes::synced_sum;
use journal::keeper::Keeper;
use journal::memory::{JOURNAL_ROOM, Memory};
use network::outcome::Outcome;
use network::report::Report;
use network::takes::take;
use std::alloc::Global;

// No `From` goes from `usize` to `u64`; the check proves that nothing is lost by `as`.

pub fn letter_told(heap: Global, journal: &[u8], bytes: &[u8]) -> Option<Told> {
    let memory = Memory::new(heap, JOURNAL_ROOM).ok()?;
    let mut keeper = Keeper::open(heap, 1, memory, journal).ok()?.keeper;
    let before = synced_sum(&mut keeper)?;
    let mut report = Report::new(heap).ok()?;
    take(&mut keeper, bytes, &mut report).ok()?;
    let after = synced_sum(&mut keeper)?;
    let replica = keeper.shown()?;
    let outcomes = report.outcomes();
    let skipped = outcomes
        .iter()
        .filter(|outcome| matches!(outcome, Outcome::Skipped(..)))
        .count();
    Some(Told {
        before,
        after,
        entries: replica.entries().len() as u64,
        committed: replica.committed() as u64,
        taken: outcomes.len().saturating_sub(skipped) as u64,
        skipped: skipped as u64,
        rejected: report.rejected() as u64,
        damaged: report.is_damaged(),
        told: true,
    })
}

pub fn journal_told(heap: Global, bytes: &[u8]) -> Option<Told> {
    let memory = Memory::new(heap, 0).ok()?;
    let opened = Keeper::open(heap, 1, memory, bytes).ok()?;
    let replica = opened.keeper.shown()?;
    let sum = sum_of(replica);
    Some(Told {
        before: sum,
        after: sum,
        entries: replica.entries().len() as u64,
        committed: replica.committed() as u64,
        taken: 0,
        skipped: 0,
        rejected: opened.cut as u64,
        damaged: false,
        told: true,
    })
}
