// Letters are taken, and journals opened.

use crate::sums::sum_of;
use journal::appender::Appender;
use journal::keeper::Keeper;
use journal::memory::{JOURNAL_ROOM, Memory};
use network::report::Report;
use network::takes::take;
use std::alloc::Global;

// A replica over its journal in memory.
pub type Kept = Keeper<Appender<Memory>>;

// The letter that some bytes begin with, behind its length in four bytes, and the bytes behind it.
fn next_letter<'a>(bytes: &'a [u8]) -> Option<(&'a [u8], &'a [u8])> {
    let (length, rest) = bytes.split_first_chunk::<4>()?;
    let length = u32::from_be_bytes(*length) as usize;
    if length > rest.len() {
        return None;
    }
    Some(rest.split_at(length))
}

// Takes letters one behind the other.
fn take_all(keeper: &mut Kept, letters: &[u8], report: &mut Report) -> Option<()> {
    let mut left = letters;
    for _ in 0..letters.len() {
        let Some((letter, rest)) = next_letter(left) else {
            break;
        };
        take(keeper, letter, report).ok()?;
        left = rest;
    }
    Some(())
}

// The sum of a replica, all of which is synced first.
pub fn synced_sum(keeper: &mut Kept) -> Option<u64> {
    keeper.sync().ok()?;
    Some(sum_of(keeper.shown()?))
}

pub fn letters_sum(heap: Global, letters: &[u8]) -> Option<u64> {
    let memory = Memory::new(heap, JOURNAL_ROOM).ok()?;
    let mut keeper = Keeper::open(heap, 1, memory, &[]).ok()?.keeper;
    let mut report = Report::new(heap).ok()?;
    take_all(&mut keeper, letters, &mut report)?;
    synced_sum(&mut keeper)
}

pub fn journal_sum(heap: Global, bytes: &[u8]) -> Option<u64> {
    let memory = Memory::new(heap, 0).ok()?;
    let mut keeper = Keeper::open(heap, 1, memory, bytes).ok()?.keeper;
    synced_sum(&mut keeper)
}
