// What a journal is made of.
use bookings::entry::Entry;

mod bytes;
mod replay;

// An entry was committed or taken as committed; or it was made or taken as tentative.
#[derive(Clone, Copy)]
pub enum Record {
    Committed(Entry),
    Tentative(Entry),
}
