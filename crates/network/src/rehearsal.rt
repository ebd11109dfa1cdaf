// Some huts in memory, every letter that they wrote, and what has come of all that they were told.
ghost use Rattle.std.specs.Prelude.{◌≡◌, Bool, false};
ghost use Rattle.network.specs.Reached.{Followed, Reached};

use crate::stage::Stage;

mod hears;
mod makes;
mod plays;
mod reads;

#[derive(Drop)]
pub struct Rehearsal {
    pub(crate) stage: Stage,
    // Whether a letter was taken that none of the huts wrote.
    pub(crate) forged: bool,
    ghost followed: { Followed stage },
    ghost reached: { forged ≡ false → Reached stage },
}
