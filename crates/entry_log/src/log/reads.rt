// A log as a whole: its entries, and how many of them are committed.
ghost use Rattle.std.specs.Prelude.{◌≡◌, map, length};
ghost use Rattle.bookings.specs.Plain.{plain};
ghost use Rattle.entry_log.specs.Logs.{all_of};
ghost use Rattle.entry_log.specs.Views.{log_in};

use super::Log;
use bookings::entry::Entry;

impl Log {
    // How many entries are committed.
    pub fn committed(&self) -> usize
        ensures { result ≡ length (log_in self.now).committed }
    {
        self.committed
    }

    // All entries, the committed ones first.
    pub fn as_slice(&self) -> &[Entry]
        ensures { map plain result.now ≡ all_of (log_in self.now) }
    {
        self.entries.as_slice()
    }
}
