// What an entry did is undone, from what came of it.
ghost use Rattle.std.specs.Prelude.{◌≡◌, ℕ, ◌<◌, ◌≤◌, List, [], ◌∷◌, map, length, Some, OnSome, slice_index_or};
ghost use Rattle.std.specs.Option.{option_map};
ghost use Rattle.bookings.specs.Held.{Covered, Few};
ghost use Rattle.bookings.specs.Outcomes.{nothing, once_held_by, plain_grant, plain_outcome};
ghost use Rattle.bookings.specs.Undone.{Rest, reinstated, taken_back};
ghost use Rattle.bookings.specs.declared.limits.TheConstants.{PLACES};

use crate::nights::{claim_beds, release_beds, restore_beds};
use crate::outcome::{Grant, Outcome};

// As in `effects`, the slices are lent apart, so that each function has its clauses on them.

// What the booking at a place held before it was cancelled or changed.
fn once_held_at(outcomes: &[Outcome], place: usize) -> Option<Grant>
    ensures value { option_map plain_grant result ≡ once_held_by (slice_index_or (map plain_outcome outcomes.now) place nothing) }
    ensures within { OnSome result (place < length outcomes.now) }
{
    outcomes.get(place)?.once_held()
}

// The booking at a place, if it was cancelled or changed, holds its choice again.
fn reinstate(booked: &mut [u32], outcomes: &mut [Outcome], place: usize)
    requires long { length booked.old ≡ PLACES }
    requires few { Few booked.old }
    ensures { (beds : List ℕ) →
        ◌≡◌ {A = Rest} (record { beds = beds; booked = booked.new; outcomes = map plain_outcome outcomes.new })
        (reinstated (Some place) (record { beds = beds; booked = booked.old; outcomes = map plain_outcome outcomes.old })) }
{
    let Some(grant) = once_held_at(outcomes, place) else {
        return;
    };
    claim_beds(booked, &grant.choice);
    outcomes[place] = Outcome::Holds(grant);
}

// Undoes the entry that was done last; `outcomes` are those of the entries before it.
pub(crate) fn take_back(
    beds: &mut [u32],
    booked: &mut [u32],
    outcomes: &mut [Outcome],
    last: &Outcome,
)
    requires long_beds { length beds.old ≡ PLACES }
    requires long { length booked.old ≡ PLACES }
    requires covered { Covered booked.old (plain_outcome last.now ∷ []) }
    requires few { Few booked.old }
    ensures { ◌≡◌ {A = Rest} (record { beds = beds.new; booked = booked.new; outcomes = map plain_outcome outcomes.new })
        (taken_back (plain_outcome last.now) (record { beds = beds.old; booked = booked.old; outcomes = map plain_outcome outcomes.old })) }
{
    match last {
        Outcome::Holds(grant) => {
            release_beds(booked, &grant.choice);
            if let Some(place) = grant.replaces {
                reinstate(booked, outcomes, place);
            }
        }
        Outcome::Freed(Some(place)) => reinstate(booked, outcomes, *place),
        Outcome::Resized(stay, were) => restore_beds(beds, stay, were),
        Outcome::Nothing | Outcome::Cancelled(_) | Outcome::Changed(_, _) | Outcome::Freed(None) =>
            {}
    }
}
