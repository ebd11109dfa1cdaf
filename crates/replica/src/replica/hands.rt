// What a replica hands on.
ghost use Rattle.std.specs.Prelude.{◌≡◌};
ghost use Rattle.replica.specs.Parcels.{parcel_for};
ghost use Rattle.replica.specs.Views.{state_of};
ghost use Rattle.replica.specs.Waits.{parcel_in};

use super::Replica;
use crate::parcel::Parcel;
use crate::summary::Summary;

impl Replica {
    // Fills a parcel for a replica that has what a summary says: the committed entries from there on, then the tentative ones that it lacks, each with what stood before it, 1,024 in all.
    pub fn hand_on(&self, has: &Summary, parcel: &mut Parcel)
        ensures { parcel_in parcel.new ≡ parcel_for has.now.committed has.now.vector.stamps (state_of self.now) }
    {
        parcel.fill(
            self.log.committed_part(),
            self.log.tentative_part(),
            has.committed,
            &has.vector,
        );
    }
}
