// Letters read and written for a caller in C or Rust, to be timed by bench/letters.
#![tactic(auto)]

use bookings::entry::Entry;
use entry_log::waiting::{MAX_LETTER_ENTRIES, Waiting};
use letters::letter::{Item, Letter};
use letters::writer::{LETTER_ROOM, write_letter};
use std::alloc::{AllocError, Global};

// Opens a letter and goes over its entries: the sum of their stamps and of the first stamps that stood before them, and how many are kept out; 0 if it is damaged.
#[unsafe(no_mangle)]
pub extern "C" fn letter_sum(bytes: &[u8]) -> u64 {
    let Ok(letter) = Letter::open(bytes) else {
        return 0;
    };
    // No `From` goes from `usize` to `u64`; the check proves that nothing is lost.
    let kept_out = letter.kept_out() as u64;
    letter.fold(kept_out, |sum, item| sum.wrapping_add(weight(&item)))
}

fn weight(item: &Item) -> u64 {
    match item {
        Item::Committed { place, entry } => place.wrapping_add(u64::from(entry.mark.stamp)),
        Item::Tentative(waiting) => {
            let stamps = waiting.stood.stamps();
            u64::from(waiting.entry.mark.stamp) + u64::from(stamps[0])
        }
    }
}

// The entries of a letter, in memory of their own; none of one that is damaged.
fn gathered(heap: Global, bytes: &[u8]) -> Result<(Vec<Entry>, Vec<Waiting>), AllocError> {
    let mut committed = Vec::with_capacity(heap, MAX_LETTER_ENTRIES)?;
    let mut tentative = Vec::with_capacity(heap, MAX_LETTER_ENTRIES)?;
    let Ok(letter) = Letter::open(bytes) else {
        return Ok((committed, tentative));
    };
    for item in letter {
        match item {
            Item::Committed { place: _, entry } => committed.push(entry)?,
            Item::Tentative(waiting) => tentative.push(waiting)?,
        }
    }
    Ok((committed, tentative))
}

// Writes the entries of a letter into one buffer so many times: its length in the end; 0 if there is no memory, or if it cannot be written.
#[unsafe(no_mangle)]
pub extern "C" fn letter_written(heap: Global, bytes: &[u8], turns: u32) -> usize {
    let Ok((committed, tentative)) = gathered(heap, bytes) else {
        return 0;
    };
    let Ok(mut out) = Vec::with_capacity(heap, LETTER_ROOM) else {
        return 0;
    };
    for _turn in 0..turns {
        out.clear();
        let Ok(()) = write_letter(0, committed.as_slice(), tentative.as_slice(), &mut out) else {
            return 0;
        };
    }
    out.len()
}
