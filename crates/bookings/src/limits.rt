// How many huts, nights, choices and beds there can be.

/// How many huts there are: a hut's number is below it.
pub const HUTS: usize = 16;

/// How many nights a hut has: a night's number is below it.
pub const NIGHTS: usize = 366;

/// The most huts that one rehearsal plays.
pub const MAX_REHEARSAL_HUTS: usize = 4;

/// The length of a list with a number for each hut and night.
pub const PLACES: usize = HUTS * NIGHTS;

/// The most nights of a stay.
pub const MAX_STAY_NIGHTS: usize = 14;

/// The most choices of a booking or a change.
pub const MAX_CHOICES: usize = 4;

/// The most beds of a choice.
pub const MAX_CHOICE_BEDS: usize = 20;

/// How many beds a hut has on a night for which no entry says another number.
pub const INITIAL_BEDS: u32 = 20;

/// The most beds that a hut can have on a night.
pub const MAX_HUT_BEDS: u8 = u8::MAX;
