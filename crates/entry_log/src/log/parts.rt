// The two parts of a log, and the entry that is the next to be committed.
ghost use Rattle.std.specs.Prelude.{◌≡◌, true, map, Some};
ghost use Rattle.bookings.specs.Plain.{plain};
ghost use Rattle.entry_log.specs.Logs.{first_entry};
ghost use Rattle.entry_log.specs.Views.{log_in};

use super::Log;
use bookings::entry::Entry;

impl Log {
    // The committed entries, in their order.
    pub fn committed_part(&self) -> &[Entry]
        ensures { map plain result.now ≡ (log_in self.now).committed }
    {
        &self.entries[..self.committed]
    }

    // The tentative entries, by their marks.
    pub fn tentative_part(&self) -> &[Entry]
        ensures { map plain result.now ≡ (log_in self.now).tentative }
    {
        &self.entries[self.committed..]
    }

    // Whether the first tentative entry is this very one.
    pub fn is_next(&self, entry: &Entry) -> bool
        ensures sound { result ≡ true → first_entry (log_in self.now).tentative ≡ Some (plain «entry».now) }
        ensures complete { first_entry (log_in self.now).tentative ≡ Some (plain «entry».now) → result ≡ true }
    {
        self.tentative_part().first() == Some(entry)
    }
}
