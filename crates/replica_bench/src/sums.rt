// A sum of all that a replica shows.

use bookings::limits::{NIGHTS, PLACES};
use replica::replica::Replica;

// A sum with a number more; where it stands makes a difference.
fn mixed(sum: u64, number: u64) -> u64 {
    sum.wrapping_mul(31).wrapping_add(number)
}

fn with_night(replica: &Replica, sum: u64, place: u64) -> u64 {
    match replica.night(place / NIGHTS as u64, place % NIGHTS as u64) {
        Ok(night) => mixed(mixed(sum, u64::from(night.beds)), u64::from(night.booked)),
        Err(_) => sum,
    }
}

// The sum of how many entries are committed, of all marks in their order, and of beds and booked on each night.
pub fn sum_of(replica: &Replica) -> u64 {
    // No `From` goes from `usize` to `u64`; the check proves that nothing is lost.
    let committed = replica.committed() as u64;
    let marks = replica.entries().iter().fold(committed, |sum, entry| {
        mixed(
            mixed(sum, u64::from(entry.mark.stamp)),
            u64::from(entry.mark.hut),
        )
    });
    (0..PLACES as u64).fold(marks, |sum, place| with_night(replica, sum, place))
}
