// How many bytes entries and letters take at most.
use bookings::limits::{HUTS, MAX_CHOICES};
use digest::DIGEST_BYTES;
use entry_log::waiting::MAX_LETTER_ENTRIES;

/// The most bytes of an entry: a mark, a kind, another's mark, how many choices there are, and these.
pub const ENTRY_ROOM: usize = 5 + 1 + 5 + 1 + 5 * MAX_CHOICES;

/// The bytes of a vector: four for each hut.
pub const VECTOR_BYTES: usize = 4 * HUTS;

/// The most bytes of a tentative entry with what stood before it.
pub const WAITING_ROOM: usize = ENTRY_ROOM + VECTOR_BYTES;

/// The bytes of a letter without entries: the first, how many are committed, their place, how many are tentative, and the digest.
pub const EMPTY_LETTER_BYTES: usize = 1 + 2 + 4 + 2 + DIGEST_BYTES;

/// The most bytes of a letter.
pub const LETTER_ROOM: usize = EMPTY_LETTER_BYTES + MAX_LETTER_ENTRIES * WAITING_ROOM;
