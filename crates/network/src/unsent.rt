// Why a letter was not written.
ghost use Rattle.std.specs.Prelude.{◌≡◌};
ghost use Rattle.network.specs.declared.unsent.Unsent.TheVariants.{Failed};

use journal::fault::Fault;
use thiserror::Error;

#[derive(Clone, Copy, Debug, Error)]
pub enum Unsent {
    #[error("the journal could not be synced: {0}")]
    Failed(Fault),
    #[error("the buffer has no room for a letter")]
    NoRoom,
}

impl From<Fault> for Unsent {
    ghost from_gives = { λ why e. e ≡ Failed why };

    fn from(why: Fault) -> Unsent {
        Unsent::Failed(why)
    }
}
