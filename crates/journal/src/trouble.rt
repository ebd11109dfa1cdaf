// Why a replica over its journal did not do what it was asked.
ghost use Rattle.std.specs.Prelude.{◌≡◌};
ghost use Rattle.journal.specs.declared.trouble.Trouble.TheVariants.{Refused, Failed};

use crate::fault::Fault;
use bookings::refusal::Refusal;
use thiserror::Error;

#[derive(Clone, Copy, Debug, Error)]
pub enum Trouble {
    // All is as it was.
    #[error("refused: {0}")]
    Refused(Refusal),
    #[error("the journal failed: {0}")]
    Failed(Fault),
}

impl From<Refusal> for Trouble {
    ghost from_gives = { λ why e. e ≡ Refused why };

    fn from(why: Refusal) -> Trouble {
        Trouble::Refused(why)
    }
}

impl From<Fault> for Trouble {
    ghost from_gives = { λ why e. e ≡ Failed why };

    fn from(why: Fault) -> Trouble {
        Trouble::Failed(why)
    }
}
