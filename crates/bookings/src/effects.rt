// What an entry does to beds and bookings, and to what earlier bookings have got.
ghost use Rattle.std.specs.Prelude.{◌≡◌, ℕ, ◌<◌, List, map, length};
ghost use Rattle.std.specs.Option.{option_map};
ghost use Rattle.bookings.specs.Books.{PlainBook, Effect, first_free, claimed, standing, cancelling, changing, effect_of};
ghost use Rattle.bookings.specs.Held.{Covered, Few};
ghost use Rattle.bookings.specs.Outcomes.{plain_grant, plain_outcome};
ghost use Rattle.bookings.specs.Plain.{plain_mark, plain_choices, plain_kind};
ghost use Rattle.bookings.specs.declared.limits.TheConstants.{PLACES};

use crate::entry::{Choices, Entry, Kind, Mark};
use crate::free::first_free;
use crate::nights::{claim_beds, release_beds, resize_beds};
use crate::outcome::{Grant, Outcome};
use crate::standing::find_standing;

// The clauses on lengths, `Covered` and `Few` stand at each function: the slices are lent apart, and between two steps no struct of them would hold the last two.

// Books the first choice that is free.
fn grant_first(
    beds: &[u32],
    booked: &mut [u32],
    choices: &Choices,
    replaces: Option<usize>,
) -> Option<Grant>
    requires { (length beds.now ≡ PLACES) × (length booked.old ≡ PLACES) }
    ensures value { option_map plain_grant result ≡ first_free beds.now booked.old replaces 0 (plain_choices choices.now) }
    ensures after { booked.new ≡ claimed booked.old (option_map plain_grant result) }
{
    let grant = first_free(beds, booked, choices, replaces)?;
    claim_beds(booked, &grant.choice);
    Some(grant)
}

fn cancel(booked: &mut [u32], marks: &[Mark], outcomes: &mut [Outcome], mark: &Mark) -> Outcome
    requires long { length booked.old ≡ PLACES }
    requires paired { length marks.now ≡ length outcomes.old }
    requires covered { Covered booked.old (map plain_outcome outcomes.old) }
    ensures { (beds : List ℕ) →
        ◌≡◌ {A = Effect}
        (record { beds = beds; booked = booked.new; outcomes = map plain_outcome outcomes.new; own = plain_outcome result })
        (cancelling (record { beds = beds; booked = booked.old; marks = map plain_mark marks.now; outcomes = map plain_outcome outcomes.old })
        (standing (map plain_mark marks.now) (map plain_outcome outcomes.old) (plain_mark mark.now))) }
{
    let Some(found) = find_standing(marks, outcomes, mark) else {
        return Outcome::Freed(None);
    };
    release_beds(booked, &found.grant.choice);
    outcomes[found.place] = Outcome::Cancelled(found.grant);
    Outcome::Freed(Some(found.place))
}

fn change(
    beds: &[u32],
    booked: &mut [u32],
    marks: &[Mark],
    outcomes: &mut [Outcome],
    own: Mark,
    mark: &Mark,
    choices: &Choices,
) -> Outcome
    requires long_beds { length beds.now ≡ PLACES }
    requires long { length booked.old ≡ PLACES }
    requires paired { length marks.now ≡ length outcomes.old }
    requires covered { Covered booked.old (map plain_outcome outcomes.old) }
    requires few { Few booked.old }
    ensures { ◌≡◌ {A = Effect}
        (record { beds = beds.now; booked = booked.new; outcomes = map plain_outcome outcomes.new; own = plain_outcome result })
        (changing (plain_mark own) (plain_choices choices.now)
        (record { beds = beds.now; booked = booked.old; marks = map plain_mark marks.now; outcomes = map plain_outcome outcomes.old })
        (standing (map plain_mark marks.now) (map plain_outcome outcomes.old) (plain_mark mark.now))) }
{
    let Some(found) = find_standing(marks, outcomes, mark) else {
        return Outcome::Nothing;
    };
    release_beds(booked, &found.grant.choice);
    let Some(grant) = grant_first(beds, booked, choices, Some(found.place)) else {
        claim_beds(booked, &found.grant.choice);
        return Outcome::Nothing;
    };
    outcomes[found.place] = Outcome::Changed(found.grant, own);
    Outcome::Holds(grant)
}

// Does an entry, behind those with the marks and outcomes that are lent, and hands back what came of it.
pub(crate) fn carry_out(
    beds: &mut [u32],
    booked: &mut [u32],
    marks: &[Mark],
    outcomes: &mut [Outcome],
    entry: &Entry,
) -> Outcome
    requires long_beds { length beds.old ≡ PLACES }
    requires long { length booked.old ≡ PLACES }
    requires paired { length marks.now ≡ length outcomes.old }
    requires covered { Covered booked.old (map plain_outcome outcomes.old) }
    requires few { Few booked.old }
    ensures { ◌≡◌ {A = Effect}
        (record { beds = beds.new; booked = booked.new; outcomes = map plain_outcome outcomes.new; own = plain_outcome result })
        (effect_of (plain_mark «entry».now.mark) (plain_kind «entry».now.kind)
        (record { beds = beds.old; booked = booked.old; marks = map plain_mark marks.now; outcomes = map plain_outcome outcomes.old })) }
{
    match &entry.kind {
        Kind::Book { choices, .. } => {
            grant_first(beds, booked, choices, None).map_or(Outcome::Nothing, Outcome::Holds)
        }
        Kind::Cancel { mark } => cancel(booked, marks, outcomes, mark),
        Kind::Change { mark, choices } => change(
            beds, booked, marks, outcomes, entry.mark, mark, choices,
        ),
        Kind::Beds { supply } => Outcome::Resized(supply.stay, resize_beds(beds, booked, supply)),
    }
}
