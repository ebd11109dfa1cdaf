// Why a journal did not do what it was asked.
ghost use Rattle.std.specs.Prelude.{◌≡◌};
ghost use Rattle.std.specs.IoError.{error_kind};
ghost use Rattle.std.specs.declared.io.ErrorKind.TheVariants.{OutOfMemory};
ghost use Rattle.journal.specs.declared.fault.Fault.TheVariants.{Disk};

use std::alloc::AllocError;
use std::io;
use std::io::ErrorKind;
use thiserror::Error;

#[derive(Clone, Copy, Debug, Error)]
pub enum Fault {
    // What the disk holds behind the last sync is not known.
    #[error("the disk refused: {0}")]
    Disk(ErrorKind),
    // Opened again, it goes on.
    #[error("an earlier write or sync failed")]
    Shut,
}

impl From<io::Error> for Fault {
    ghost from_gives = { λ why e. e ≡ Disk (error_kind why) };

    fn from(why: io::Error) -> Fault {
        Fault::Disk(why.kind())
    }
}

impl From<AllocError> for Fault {
    ghost from_gives = { λ _ e. e ≡ Disk OutOfMemory };

    fn from(_why: AllocError) -> Fault {
        Fault::Disk(ErrorKind::OutOfMemory)
    }
}
