// What a line asks to be entered, in numbers that may be out of range.
ghost use Rattle.std.specs.Prelude.{◌≡◌, ◌≤◌, length};
ghost use Rattle.bookings.specs.declared.limits.TheConstants.{MAX_CHOICES};

use crate::mark::RawMark;
use bookings::limits::MAX_CHOICES;

mod checks;
mod reads;

// Beds on some nights of a hut.
#[derive(Clone, Copy)]
pub struct RawChoice {
    pub hut: u64,
    pub night: u64,
    pub nights: u64,
    pub beds: u64,
}

// The first `count` of the array, as `Numbers` has them: one struct of both would name a type and a size at each use.
// They are no model of it, for the reason there.
#[derive(Clone, Copy)]
pub struct RawChoices {
    count: usize,
    all: [RawChoice; MAX_CHOICES],
    ghost few: { count ≤ MAX_CHOICES },
    ghost four: { length all ≡ MAX_CHOICES },
}

#[derive(Clone, Copy)]
pub enum Request {
    Book { guest: u64, choices: RawChoices },
    Cancel { mark: RawMark },
    Change { mark: RawMark, choices: RawChoices },
    Beds { supply: RawChoice },
}
