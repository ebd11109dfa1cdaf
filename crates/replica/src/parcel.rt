// What is handed on to another replica: room for all that one letter can hold, reserved once.
ghost use Rattle.std.specs.Prelude.{◌≤◌, vec_capacity};
ghost use Rattle.entry_log.specs.declared.waiting.TheConstants.{MAX_LETTER_ENTRIES};

use bookings::entry::Entry;
pub use entry_log::waiting::Waiting;

mod fills;

#[derive(Drop)]
pub struct Parcel {
    committed: Vec<Entry>,
    tentative: Vec<Waiting>,
    ghost room: { (MAX_LETTER_ENTRIES ≤ vec_capacity committed) × (MAX_LETTER_ENTRIES ≤ vec_capacity tentative) },
}
