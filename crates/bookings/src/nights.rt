// Beds and bookings of the nights of all huts, as lent slices of `PLACES` numbers, hut by hut.
ghost use Rattle.std.specs.Prelude.{◌≡◌, ℕ, ◌+◌, ◌-◌, ◌*◌, ◌^◌, ◌<◌, ◌≤◌, max, length, take, slice_index};
ghost use Rattle.bookings.specs.Nights.{first, claim, release, resize, restore, numbers_on};
ghost use Rattle.bookings.specs.Plain.{plain_choice, plain_stay, plain_supply};

use crate::entry::{Choice, Stay, Supply};
use crate::limits::{MAX_STAY_NIGHTS, NIGHTS, PLACES};
use std::ops::Range;

// The places of a stay's nights.
fn places_of(stay: &Stay) -> Range<usize>
    ensures { (result.start ≡ first (plain_stay stay.now)) × (result.end ≡ result.start + stay.now.nights) × (result.end ≤ PLACES) }
{
    let first = usize::from(stay.hut) * NIGHTS + usize::from(stay.night);
    first..first + usize::from(stay.nights)
}

// The numbers of a stay's nights.
pub(crate) fn nights_of<'a>(numbers: &'a [u32], stay: &Stay) -> &'a [u32]
    requires { length numbers.now ≡ PLACES }
    ensures numbers { result.now ≡ numbers_on numbers.now (plain_stay stay.now) }
    ensures many { length result.now ≡ stay.now.nights }
{
    &numbers[places_of(stay)]
}

// Books the beds of a choice.
pub(crate) fn claim_beds(booked: &mut [u32], choice: &Choice)
    requires long { length booked.old ≡ PLACES }
    requires fits { (k : ℕ) → k < choice.now.stay.nights → slice_index booked.old (first (plain_stay choice.now.stay) + k) + choice.now.beds < 2 ^ 32 }
    ensures { booked.new ≡ claim booked.old (plain_choice choice.now) }
{
    let beds = u32::from(choice.beds);
    let nights = &mut booked[places_of(&choice.stay)];
    for night in nights.iter_mut() {
        *night += beds;
    }
}

// Gives the beds of a choice back. Beside `claim_beds`, since each requires another thing of the night's number, which a common function would say again.
pub(crate) fn release_beds(booked: &mut [u32], choice: &Choice)
    requires long { length booked.old ≡ PLACES }
    requires held { (k : ℕ) → k < choice.now.stay.nights → choice.now.beds ≤ slice_index booked.old (first (plain_stay choice.now.stay) + k) }
    ensures { booked.new ≡ release booked.old (plain_choice choice.now) }
{
    let beds = u32::from(choice.beds);
    let nights = &mut booked[places_of(&choice.stay)];
    for night in nights.iter_mut() {
        *night -= beds;
    }
}

// Sets the beds of some nights, on each to no fewer than are booked, and hands back how many there were.
pub(crate) fn resize_beds(
    beds: &mut [u32],
    booked: &[u32],
    supply: &Supply,
) -> [u32; MAX_STAY_NIGHTS]
    requires { (length beds.old ≡ PLACES) × (length booked.now ≡ PLACES) }
    ensures after { beds.new ≡ resize beds.old booked.now (plain_supply supply.now) }
    ensures were { take supply.now.stay.nights result ≡ numbers_on beds.old (plain_stay supply.now.stay) }
{
    let booked = nights_of(booked, &supply.stay);
    let nights = &mut beds[places_of(&supply.stay)];
    let mut were = [0u32; MAX_STAY_NIGHTS];
    were[..nights.len()].copy_from_slice(nights);
    let wanted = u32::from(supply.beds);
    // By the index, since of what a `zip` on `iter_mut` writes nothing is known after the loop.
    for (n, night) in nights.iter_mut().enumerate() {
        *night = wanted.max(booked[n]);
    }
    were
}

// Puts the beds of some nights back to what they were.
pub(crate) fn restore_beds(beds: &mut [u32], stay: &Stay, were: &[u32; MAX_STAY_NIGHTS])
    requires { length beds.old ≡ PLACES }
    ensures { beds.new ≡ restore beds.old (plain_stay stay.now) (take stay.now.nights were.now) }
{
    beds[places_of(stay)].copy_from_slice(&were[..usize::from(stay.nights)]);
}
