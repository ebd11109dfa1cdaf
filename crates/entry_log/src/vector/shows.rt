// A vector as text.
ghost use Rattle.std.specs.Prelude.{Some};
ghost use Rattle.entry_log.specs.Texts.{vector_text};

use super::Vector;
use std::fmt;

impl fmt::Display for Vector {
    ghost output = { λ v. Some (vector_text v.stamps) };

    fn fmt<W: fmt::Write>(&self, f: &mut fmt::Formatter<W>) -> fmt::Result {
        write!(f, "{}", self.stamps[0])?;
        for stamp in &self.stamps[1..] {
            write!(f, " {stamp}")?;
        }
        Ok(())
    }
}
