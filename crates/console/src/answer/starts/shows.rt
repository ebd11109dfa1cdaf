// The text of what is said at the start.
ghost use Rattle.std.specs.Prelude.{Some};
ghost use Rattle.console.specs.LetterAnswers.{opened_text, usage_text};

use super::{Opened, Usage};
use std::fmt;

impl fmt::Display for Opened {
    ghost output = { λ o. Some (opened_text o) };

    fn fmt<W: fmt::Write>(&self, f: &mut fmt::Formatter<W>) -> fmt::Result {
        write!(
            f,
            "hut {}: {} in ink, {} in pencil",
            self.hut, self.committed, self.tentative
        )?;
        match self.cut {
            0 => Ok(()),
            bytes => write!(f, ", {bytes} bytes cut off"),
        }
    }
}

impl fmt::Display for Usage {
    ghost output = { λ u. Some (usage_text u) };

    fn fmt<W: fmt::Write>(&self, f: &mut fmt::Formatter<W>) -> fmt::Result {
        f.write_str(match self {
            Usage::Hut =>
                "book G, then up to four choices H N K B\ncancel S H\nchange S H, then up to four choices H N K B\nbeds H N K B\nink\nhave\nletter C S0 .. S15\ntake HEX\nshow, or show H N\nline\ngot S H\nserve S0 .. S15\nhelp",
            Usage::Rehearsal =>
                "huts, then one to four huts\nat I\nwalk I J\nlose I J\nagain K J\ncut K J N\nstop I N",
        })
    }
}
