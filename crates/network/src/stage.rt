// Replicas over journals in memory, and every letter that they wrote.
ghost use Rattle.std.specs.Prelude.{◌≤◌, vec_capacity};
ghost use Rattle.letters.specs.declared.limits.TheConstants.{LETTER_ROOM};

use crate::report::Report;
use journal::appender::Appender;
use journal::keeper::Keeper;
use journal::memory::Memory;
use replica::parcel::Parcel;

mod acts;
mod exchanges;
mod plays;

#[derive(Drop)]
pub struct Stage {
    pub(crate) keepers: Vec<Keeper<Appender<Memory>>>,
    pub(crate) letters: Vec<Vec<u8>>,
    // Room for a letter, for what one can hold, and for what comes of one, reserved once.
    pub(crate) page: Vec<u8>,
    pub(crate) parcel: Parcel,
    pub(crate) report: Report,
    ghost room: { LETTER_ROOM ≤ vec_capacity page },
}
