// What is said at the start: what was opened, and how lines are written.
mod shows;

// How many entries a replica has, and how many bytes of its journal were cut off.
#[derive(Clone, Copy)]
pub struct Opened {
    pub hut: u8,
    pub committed: usize,
    pub tentative: usize,
    pub cut: usize,
}

// The lines that a hut reads, and those that a rehearsal reads besides.
#[derive(Clone, Copy)]
pub enum Usage {
    Hut,
    Rehearsal,
}
