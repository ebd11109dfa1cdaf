// Replicas over their journals for a caller in C or Rust, to be timed by bench/replica and given damaged bytes by bench/damage.
#![tactic(auto)]

use std::alloc::Global;

mod sums;
mod takes;
mod tells;

// Takes letters into an empty replica, each behind its length in four bytes: the sum of its log and book in the end; 0 if there is no memory.
#[unsafe(no_mangle)]
pub extern "C" fn letters_sum(heap: Global, letters: &[u8]) -> u64 {
    takes::letters_sum(heap, letters).unwrap_or(0)
}

// Opens a journal: the sum of the log and book that it makes; 0 if there is no memory.
#[unsafe(no_mangle)]
pub extern "C" fn journal_sum(heap: Global, bytes: &[u8]) -> u64 {
    takes::journal_sum(heap, bytes).unwrap_or(0)
}

// What came of bytes that a replica was given: the sum of its log and book before and after, how many entries it has then and how many of these are
// committed, how many were taken, skipped and kept out, and whether all was damaged; of a journal, `rejected` is how many bytes were cut off.
#[derive(Clone, Copy)]
#[repr(C)]
pub struct Told {
    pub before: u64,
    pub after: u64,
    pub entries: u64,
    pub committed: u64,
    pub taken: u64,
    pub skipped: u64,
    pub rejected: u64,
    pub damaged: bool,
    pub told: bool,
}

impl Told {
    // Nothing is told, since there is no memory.
    fn nothing() -> Told {
        Told {
            before: 0,
            after: 0,
            entries: 0,
            committed: 0,
            taken: 0,
            skipped: 0,
            rejected: 0,
            damaged: false,
            told: false,
        }
    }
}

// Takes bytes, whatever they are, as a letter at the replica that a journal makes.
#[unsafe(no_mangle)]
pub extern "C" fn letter_told(heap: Global, journal: &[u8], bytes: &[u8]) -> Told {
    tells::letter_told(heap, journal, bytes).unwrap_or(Told::nothing())
}

// Opens bytes, whatever they are, as a journal.
#[unsafe(no_mangle)]
pub extern "C" fn journal_told(heap: Global, bytes: &[u8]) -> Told {
    tells::journal_told(heap, bytes).unwrap_or(Told::nothing())
}
