// What an entry is. The ghost fields are its ranges, so that a value of these types is always in range.
ghost use Rattle.std.specs.Prelude.{◌≡◌, ◌+◌, ◌<◌, ◌≤◌, length};
ghost use Rattle.bookings.specs.declared.limits.TheConstants.{HUTS, MAX_CHOICES, MAX_CHOICE_BEDS, MAX_HUT_BEDS, MAX_STAY_NIGHTS, NIGHTS};

use crate::limits::MAX_CHOICES;

mod checks;
mod same;
mod shows;

// What an entry is known by: a Lamport timestamp, and the hut that made it.
#[derive(Clone, Copy, PartialEq, Eq, PartialOrd, Ord)]
pub struct Mark {
    pub stamp: u32,
    pub hut: u8,
    ghost stamp_ok: { 1 ≤ stamp },
    ghost hut_ok: { hut < HUTS },
}

// Some nights of a hut, one after another.
#[derive(Clone, Copy, PartialEq, Eq)]
pub struct Stay {
    pub hut: u8,
    pub night: u16,
    pub nights: u8,
    ghost hut_ok: { hut < HUTS },
    ghost nights_ok: { (1 ≤ nights) × (nights ≤ MAX_STAY_NIGHTS) },
    ghost within: { night + nights ≤ NIGHTS },
}

// Beds wanted for a stay.
#[derive(Clone, Copy, PartialEq, Eq)]
pub struct Choice {
    pub stay: Stay,
    pub beds: u8,
    ghost beds_ok: { (1 ≤ beds) × (beds ≤ MAX_CHOICE_BEDS) },
}

// Up to four choices, the one that is wanted most first: the first `count` of the array, since an entry is copied, and takes no memory.
// With no `Model`: its fields are public, and contracts say `listed` of it.
#[derive(Clone, Copy)]
pub struct Choices {
    pub count: u8,
    pub all: [Choice; MAX_CHOICES],
    ghost few: { count ≤ MAX_CHOICES },
    ghost four: { length all ≡ MAX_CHOICES },
}

// How many beds a hut has on some nights. A type beside `Choice`, so that none passes for the other.
#[derive(Clone, Copy, PartialEq, Eq)]
pub struct Supply {
    pub stay: Stay,
    pub beds: u8,
    ghost beds_ok: { beds ≤ MAX_HUT_BEDS },
}

#[derive(Clone, Copy, PartialEq, Eq)]
pub enum Kind {
    Book { guest: u32, choices: Choices },
    Cancel { mark: Mark },
    Change { mark: Mark, choices: Choices },
    Beds { supply: Supply },
}

#[derive(Clone, Copy, PartialEq, Eq)]
pub struct Entry {
    pub mark: Mark,
    pub kind: Kind,
}
