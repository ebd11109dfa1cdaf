// The records of a journal that is opened are replayed.
ghost use Rattle.std.specs.Prelude.{◌≡◌};
ghost use Rattle.entry_log.specs.Logs.{empty_log};
ghost use Rattle.replica.specs.Views.{state_of};
ghost use Rattle.journal.specs.Records.{Replayed};

use crate::record::Record;
use letters::reader::Reader;
use replica::replica::Replica;

// Replays, on an empty replica, the records that bytes begin with, as far as they are whole, in range and can stand; says how many bytes these are.
pub(crate) fn replay_all(replica: &mut Replica, bytes: &[u8]) -> usize
    requires { (state_of replica.old).log ≡ empty_log }
    ensures { Replayed (state_of replica.old).hut bytes.now result (state_of replica.new) }
{
    let mut reader = Reader::new(bytes);
    let mut whole = 0;
    // A fixed form of the project: what is read is taken apart by `let .. else`, and so is its replay (docs/DECISIONS.md, "Code forms").
    loop {
        let Ok(record) = Record::read(&mut reader) else {
            break;
        };
        let Ok(()) = record.replay(replica) else {
            break;
        };
        whole = bytes.len() - reader.rest().len();
    }
    whole
}
