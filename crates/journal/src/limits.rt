// How many records a journal has at most, and how many bytes they take.
use bookings::book::CAPACITY;
use letters::limits::ENTRY_ROOM;

/// The most bytes of a record: its kind, and an entry.
pub const RECORD_ROOM: usize = 1 + ENTRY_ROOM;

/// The most records of a journal: each entry is written twice at most, as a tentative and as a committed one.
pub const MAX_RECORDS: usize = 2 * CAPACITY;

/// The most bytes of a journal.
pub const MAX_JOURNAL_BYTES: usize = MAX_RECORDS * RECORD_ROOM;

/// With room for so many bytes a journal in memory never fails: one more than it can need.
pub const JOURNAL_ROOM: usize = MAX_JOURNAL_BYTES + 1;
