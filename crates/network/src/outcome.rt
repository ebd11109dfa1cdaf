// What comes of a letter's entries.
use bookings::entry::Mark;
use bookings::refusal::Refusal;

// An entry of a letter was taken as committed at its place, or as tentative, or was skipped.
#[derive(Clone, Copy)]
pub enum Outcome {
    Committed { place: u64, mark: Mark },
    Tentative(Mark),
    Skipped(Refusal, Mark),
}
