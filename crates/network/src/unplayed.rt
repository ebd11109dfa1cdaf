// Why an event could not be played.
ghost use Rattle.std.specs.Prelude.{◌≡◌};
ghost use Rattle.journal.specs.declared.trouble.Trouble.TheVariants.{Refused as Kept_out, Failed as Broken};
ghost use Rattle.network.specs.declared.unplayed.Unplayed.TheVariants.{Memory, Refused, Failed};
ghost use Rattle.network.specs.declared.unsent.Unsent.TheVariants.{Failed as Unwritten, NoRoom};

use crate::unsent::Unsent;
use bookings::refusal::Refusal;
use journal::fault::Fault;
use journal::trouble::Trouble;
use std::alloc::AllocError;
use thiserror::Error;

#[derive(Clone, Copy, Debug, Error)]
pub enum Unplayed {
    #[error("no memory")]
    Memory,
    #[error("refused: {0}")]
    Refused(Refusal),
    #[error("the journal failed: {0}")]
    Failed(Fault),
}

impl From<Refusal> for Unplayed {
    ghost from_gives = { λ why e. e ≡ Refused why };

    fn from(refusal: Refusal) -> Unplayed {
        Unplayed::Refused(refusal)
    }
}

impl From<Fault> for Unplayed {
    ghost from_gives = { λ why e. e ≡ Failed why };

    fn from(fault: Fault) -> Unplayed {
        Unplayed::Failed(fault)
    }
}

impl From<AllocError> for Unplayed {
    ghost from_gives = { λ _ e. e ≡ Memory };

    fn from(_why: AllocError) -> Unplayed {
        Unplayed::Memory
    }
}

impl From<Trouble> for Unplayed {
    ghost from_gives = { λ why e. elim why [ Kept_out w ↦ e ≡ Refused w | Broken f ↦ e ≡ Failed f ] };

    fn from(why: Trouble) -> Unplayed {
        match why {
            Trouble::Refused(why) => Unplayed::Refused(why),
            Trouble::Failed(why) => Unplayed::Failed(why),
        }
    }
}

impl From<Unsent> for Unplayed {
    ghost from_gives = { λ why e. elim why [ Unwritten f ↦ e ≡ Failed f | NoRoom ↦ e ≡ Memory ] };

    fn from(why: Unsent) -> Unplayed {
        match why {
            Unsent::Failed(why) => Unplayed::Failed(why),
            Unsent::NoRoom => Unplayed::Memory,
        }
    }
}
