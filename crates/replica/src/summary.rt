// What a replica says to have.
use entry_log::vector::Vector;

// How many entries are committed, and the highest stamp of each hut.
#[derive(Clone, Copy, PartialEq, Eq)]
pub struct Summary {
    pub committed: usize,
    pub vector: Vector,
}
