// A replica over its journal.
ghost use Rattle.std.specs.Prelude.{◌≤◌, vec_capacity};
ghost use Rattle.journal.specs.declared.limits.TheConstants.{RECORD_ROOM};

use replica::replica::Replica;

mod crashes;
mod opens;
mod reads;
mod takes;
mod writes;

#[derive(Drop)]
pub struct Keeper<J> {
    pub(crate) replica: Replica,
    pub(crate) journal: J,
    // One record's bytes; the room for them is reserved once.
    pub(crate) line: Vec<u8>,
    ghost room: { RECORD_ROOM ≤ vec_capacity line },
}
