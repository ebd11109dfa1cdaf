// What opening comes to.
ghost use Rattle.std.specs.Prelude.{◌≡◌};
ghost use Rattle.journal.specs.declared.opened.NotOpened.TheVariants.{Memory, Refused, Failed};
ghost use Rattle.replica.specs.declared.fault.Fault.TheVariants.{Memory as Unmade, Refused as Kept_out};

use crate::appender::Appender;
use crate::fault::Fault;
use crate::keeper::Keeper;
use bookings::refusal::Refusal;
use replica::fault;
use std::alloc::AllocError;
use thiserror::Error;

#[derive(Clone, Copy, Debug, Error)]
pub enum NotOpened {
    #[error("no memory")]
    Memory,
    // There is no such hut.
    #[error("refused: {0}")]
    Refused(Refusal),
    #[error("the journal could not be cut or settled: {0}")]
    Failed(Fault),
}

impl From<fault::Fault> for NotOpened {
    ghost from_gives = { λ why e. elim why [ Unmade ↦ e ≡ Memory | Kept_out w ↦ e ≡ Refused w ] };

    fn from(why: fault::Fault) -> NotOpened {
        match why {
            fault::Fault::Memory => NotOpened::Memory,
            fault::Fault::Refused(why) => NotOpened::Refused(why),
        }
    }
}

impl From<AllocError> for NotOpened {
    ghost from_gives = { λ _ e. e ≡ Memory };

    fn from(_why: AllocError) -> NotOpened {
        NotOpened::Memory
    }
}

impl From<Fault> for NotOpened {
    ghost from_gives = { λ why e. e ≡ Failed why };

    fn from(why: Fault) -> NotOpened {
        NotOpened::Failed(why)
    }
}

// A replica over its journal, and how many bytes behind the last record were cut off.
#[derive(Drop)]
pub struct Opened<M> {
    pub keeper: Keeper<Appender<M>>,
    pub cut: usize,
}
