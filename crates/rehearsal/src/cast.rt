// The huts of a rehearsal, which of them is meant, and the letters by their numbers.
ghost use Rattle.std.specs.Prelude.{◌<◌, vec_len};

use network::rehearsal::Rehearsal;
use std::alloc::Global;

mod carries;
mod desks;
mod plays;
mod reads;

#[derive(Drop)]
pub struct Cast {
    // Where the memory of letters comes from.
    heap: Global,
    rehearsal: Rehearsal,
    // The place of the hut that lines are for.
    current: usize,
    // The letters that were carried or lost, by their numbers from 1.
    carried: Vec<usize>,
    ghost within: { current < vec_len rehearsal.stage.keepers },
}
