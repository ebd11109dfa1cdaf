// Records are replayed on a replica.
ghost use Rattle.std.specs.Prelude.{◌≡◌, Some, None, MatchResult};
ghost use Rattle.bookings.specs.Refusals.{number_of};
ghost use Rattle.replica.specs.Views.{state_of};
ghost use Rattle.journal.specs.Records.{with_record, replay_refusal};
ghost use Rattle.journal.specs.Views.{plain_record};

use super::Record;
use bookings::refusal::Refusal;
use entry_log::vector::Vector;
use replica::replica::Replica;

impl Record {
    // What the record says happens again; refused where it cannot stand next.
    pub(crate) fn replay(&self, replica: &mut Replica) -> Result<(), Refusal>
        ensures { MatchResult result
            (λ _. (replay_refusal (plain_record self.now) (state_of replica.old) ≡ None) × (state_of replica.new ≡ with_record (plain_record self.now) (state_of replica.old)))
            (λ e. (replay_refusal (plain_record self.now) (state_of replica.old) ≡ Some (number_of e)) × (state_of replica.new ≡ state_of replica.old)) }
    {
        match self {
            Record::Committed(entry) => replica.take_committed(replica.committed(), *entry),
            Record::Tentative(entry) => replica.take_tentative(*entry, &Vector::zero()),
        }
    }
}
