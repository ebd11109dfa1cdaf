// Which choice of a booking is free.
ghost use Rattle.std.specs.Prelude.{◌≡◌, ◌+◌, ◌<◌, ◌≤◌, length};
ghost use Rattle.std.specs.Option.{option_map};
ghost use Rattle.bookings.specs.Books.{first_free};
ghost use Rattle.bookings.specs.Outcomes.{plain_grant};
ghost use Rattle.bookings.specs.Plain.{plain_choices};
ghost use Rattle.bookings.specs.declared.limits.TheConstants.{PLACES};

use crate::entry::Choices;
use crate::nights::nights_of;
use crate::outcome::Grant;

// The first choice that has its beds free on each of its nights, for a booking or for a change of the one at `replaces`.
pub(crate) fn first_free(
    beds: &[u32],
    booked: &[u32],
    choices: &Choices,
    replaces: Option<usize>,
) -> Option<Grant>
    requires { (length beds.now ≡ PLACES) × (length booked.now ≡ PLACES) }
    ensures { option_map plain_grant result ≡ first_free beds.now booked.now replaces 0 (plain_choices choices.now) }
{
    let listed = choices.as_slice();
    // A labelled loop: the project keeps this form, a loop over choices and nights that is left at the first that is free.
    'choices: for (i, choice) in listed.iter().enumerate() {
        let there = nights_of(beds, &choice.stay);
        let taken = nights_of(booked, &choice.stay);
        for (beds, booked) in there.iter().zip(taken) {
            if beds.saturating_sub(*booked) < u32::from(choice.beds) {
                continue 'choices;
            }
        }
        return Some(Grant {
            // There are four at most.
            number: i as u8,
            choice: *choice,
            replaces,
        });
    }
    None
}
