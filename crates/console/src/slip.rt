// The lines of a guest's slip: what they ask for, and what is answered.
use crate::vector::RawVector;
use bookings::refusal::Refusal;
use entry_log::vector::Vector;

mod reads;
mod shows;
mod verb;

pub use self::reads::read_slip_command;

#[derive(Clone, Copy)]
pub enum SlipCommand {
    // An empty line, or a comment.
    Pass,
    // What is on the slip.
    Slip,
    // Whether a replica with that vector may serve the guest.
    May { vector: RawVector },
    // What a replica has is added.
    Add { vector: RawVector },
    // How lines are written.
    Help,
}

// What a line's first word asks for.
#[derive(Clone, Copy)]
pub enum SlipVerb {
    Slip,
    May,
    Add,
    Help,
}

// What a line should have been. Not `Expected`: that has four cases more, and each names its own commands in its text.
// It is answered in a line, and no error of a program: so no `Error`.
#[derive(Clone, Copy)]
pub enum SlipExpected {
    Command,
    Form { verb: SlipVerb },
}

#[derive(Clone, Copy)]
pub enum SlipAnswer {
    // What is on the slip now.
    Slip { slip: Vector },
    // A replica may serve the guest.
    Yes,
    Refused { why: Refusal },
    Usage,
    Error { expected: SlipExpected },
}
