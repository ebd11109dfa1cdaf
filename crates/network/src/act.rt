// What a replica of a rehearsal is told to do, and what comes of it.
use bookings::entry::{Kind, Mark};
use entry_log::vector::Vector;
use replica::summary::Summary;

#[derive(Clone, Copy)]
pub enum Act {
    Make(Kind),
    Commit,
    Sync,
    // A letter for one that says to have that.
    Write(Summary),
    // A letter comes, of those written, from 0.
    Take { letter: usize },
    // Only the first bytes of a letter come, so many of them.
    Cut { letter: usize, length: usize },
    // It crashes and is opened again: of what was not synced the first bytes are left, so many of them.
    Crash { left: usize },
    // A guest with that slip comes.
    Visit(Vector),
}

// For each act one case, but that the whole of a letter or its first bytes are taken alike.
#[derive(Clone, Copy)]
pub enum Done {
    Made(Mark),
    // Nothing where nothing was tentative.
    Committed(Option<Mark>),
    Synced,
    // Which letter it is, from 0.
    Written(usize),
    // What came of its entries stands in the report.
    Taken,
    // So many bytes behind the last record were cut off.
    Crashed { cut: usize },
    // The guest's slip, with all that the replica knows.
    Visited(Vector),
}
