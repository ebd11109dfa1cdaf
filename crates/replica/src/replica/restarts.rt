// A replica begins again.
ghost use Rattle.std.specs.Prelude.{◌≡◌};
ghost use Rattle.replica.specs.Model.{fresh};
ghost use Rattle.replica.specs.Views.{state_of};

use super::Replica;
use crate::head::Head;
use crate::redo::redo_log;

impl Replica {
    // No entry is known any more; its memory stays.
    pub fn forget(&mut self)
        ensures { state_of self.new ≡ fresh (state_of self.old).hut }
    {
        self.log.clear();
        redo_log(&mut self.book, self.log.as_slice(), 0);
        self.head = Head::empty(self.head.hut);
    }
}
