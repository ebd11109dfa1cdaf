// A mark as text.
ghost use Rattle.std.specs.Prelude.{Some};
ghost use Rattle.bookings.specs.Texts.{mark_text};

use super::Mark;
use std::fmt;

impl fmt::Display for Mark {
    ghost output = { λ m. Some (mark_text m) };

    fn fmt<W: fmt::Write>(&self, f: &mut fmt::Formatter<W>) -> fmt::Result {
        write!(f, "{} {}", self.stamp, self.hut)
    }
}
