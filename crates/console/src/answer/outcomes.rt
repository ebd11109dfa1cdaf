// What an outcome is in words.
ghost use Rattle.std.specs.Prelude.{◌≡◌};
ghost use Rattle.bookings.specs.Outcomes.{plain_outcome};
ghost use Rattle.console.specs.Answers.{got_of};

use super::Got;
use crate::mark::RawMark;
use bookings::outcome::Outcome;

impl From<&Outcome> for Got {
    ghost from_gives = { λ outcome got. got ≡ got_of (plain_outcome outcome.now) };

    fn from(outcome: &Outcome) -> Got {
        match outcome {
            Outcome::Holds(grant) => {
                let stay = grant.choice.stay;
                Got::Choice {
                    number: u16::from(grant.number) + 1,
                    hut: stay.hut,
                    first: stay.night,
                    last: stay.night + u16::from(stay.nights) - 1,
                    beds: grant.choice.beds,
                }
            }
            Outcome::Nothing => Got::Nothing,
            Outcome::Cancelled(_) => Got::Cancelled,
            Outcome::Changed(_, by) => Got::ChangedBy {
                mark: RawMark::from(*by),
            },
            Outcome::Freed(_) | Outcome::Resized(_, _) => Got::NotABooking,
        }
    }
}
