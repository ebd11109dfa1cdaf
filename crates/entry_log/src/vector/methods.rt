// What is made of vectors, and asked of them.
ghost use Rattle.std.specs.Prelude.{◌≡◌, ◌<◌, nat_le, slice_index};
ghost use Rattle.bookings.specs.Plain.{plain_mark};
ghost use Rattle.entry_log.specs.Vectors.{no_stamps, noted, covers, joined_with};

use super::Vector;
use bookings::entry::Mark;
use bookings::limits::HUTS;
use std::array;

impl Vector {
    pub fn zero() -> Vector
        ensures { result.stamps ≡ no_stamps }
    {
        Vector { stamps: [0; HUTS] }
    }

    // Whether a mark's stamp is at most the one of its hut.
    pub fn reaches(&self, mark: &Mark) -> bool
        ensures { result ≡ nat_le mark.now.stamp (slice_index self.now.stamps mark.now.hut) }
    {
        mark.stamp <= self.stamps[usize::from(mark.hut)]
    }

    // Notes a mark: the stamp of its hut is then at least as high.
    pub fn note(&mut self, mark: &Mark)
        ensures { self.new.stamps ≡ noted (plain_mark mark.now) self.old.stamps }
    {
        let hut = usize::from(mark.hut);
        self.stamps[hut] = self.stamps[hut].max(mark.stamp);
    }

    // Whether each stamp is at least as high as another vector's.
    pub fn covers(&self, other: &Vector) -> bool
        ensures { result ≡ covers self.now.stamps other.now.stamps }
    {
        self.stamps
            .iter()
            .zip(&other.stamps)
            .all(|(ours, theirs)| ours >= theirs)
    }

    // Raises each stamp to another vector's, where that is higher.
    pub fn join(&mut self, other: &Vector)
        ensures { self.new.stamps ≡ joined_with self.old.stamps other.now.stamps }
    {
        self.stamps = array::from_fn(|h| self.stamps[h].max(other.stamps[h]));
    }
}
