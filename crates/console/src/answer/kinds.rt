// Which kind an entry is of, and how it stands.
ghost use Rattle.std.specs.Prelude.{◌≡◌};
ghost use Rattle.console.specs.Answers.{kind_name_of, standing_of};

use super::{KindName, Standing};
use bookings::entry::Kind;

impl From<&Kind> for KindName {
    ghost from_gives = { λ kind name. name ≡ kind_name_of kind.now };

    fn from(kind: &Kind) -> KindName {
        match kind {
            Kind::Book { .. } => KindName::Book,
            Kind::Cancel { .. } => KindName::Cancel,
            Kind::Change { .. } => KindName::Change,
            Kind::Beds { .. } => KindName::Beds,
        }
    }
}

// Of whether an entry is committed.
impl From<bool> for Standing {
    ghost from_gives = { λ committed standing. standing ≡ standing_of committed };

    fn from(committed: bool) -> Standing {
        if committed {
            Standing::Committed
        } else {
            Standing::Tentative
        }
    }
}
