// A tentative entry on its way to another replica.
use crate::vector::Vector;
use bookings::entry::Entry;

/// The most entries of one letter, committed and tentative ones together.
pub const MAX_LETTER_ENTRIES: usize = 1024;

// A tentative entry, with the vector of what stood before it.
#[derive(Clone, Copy)]
pub struct Waiting {
    pub entry: Entry,
    pub stood: Vector,
}
