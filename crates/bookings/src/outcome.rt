// What came of an entry that was done, with just enough to undo it.
ghost use Rattle.std.specs.Prelude.{◌≡◌};
ghost use Rattle.std.specs.Option.{option_map};
ghost use Rattle.bookings.specs.Outcomes.{plain_grant, plain_outcome, held_by, once_held_by};

use crate::entry::{Choice, Mark, Stay};
use crate::limits::MAX_STAY_NIGHTS;

// The choice that a booking has got: which of its choices, counted from 0, and for a change the place of the booking that it changed.
#[derive(Clone, Copy)]
pub struct Grant {
    pub number: u8,
    pub choice: Choice,
    pub replaces: Option<usize>,
}

#[derive(Clone, Copy)]
pub enum Outcome {
    // A booking that holds a choice.
    Holds(Grant),
    // A booking, or a change, that has got nothing.
    Nothing,
    // A booking that held a choice until it was cancelled.
    Cancelled(Grant),
    // A booking that held a choice until the entry with that mark changed it.
    Changed(Grant, Mark),
    // A cancellation, with the place of the booking that it freed.
    Freed(Option<usize>),
    // A change of beds, with how many beds there were on each of its nights: an outcome is copied and takes no memory, and the stay says how many count.
    Resized(Stay, [u32; MAX_STAY_NIGHTS]),
}

// A booking that holds a choice, by its place.
#[derive(Clone, Copy)]
pub struct Standing {
    pub place: usize,
    pub grant: Grant,
}

impl Outcome {
    // What a booking holds.
    pub fn held(&self) -> Option<Grant>
        ensures { option_map plain_grant result ≡ held_by (plain_outcome self.now) }
    {
        match self {
            Outcome::Holds(grant) => Some(*grant),
            _ => None,
        }
    }

    // What a booking held before it was cancelled or changed.
    pub fn once_held(&self) -> Option<Grant>
        ensures { option_map plain_grant result ≡ once_held_by (plain_outcome self.now) }
    {
        match self {
            Outcome::Cancelled(grant) | Outcome::Changed(grant, _) => Some(*grant),
            _ => None,
        }
    }
}
