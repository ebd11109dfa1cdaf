// The text of each line about letters.
ghost use Rattle.std.specs.Prelude.{Some};
ghost use Rattle.console.specs.LetterAnswers.{carried_text, taking_text};

use super::{Carried, Taking};
use std::fmt;

impl fmt::Display for Carried {
    ghost output = { λ c. Some (carried_text c) };

    fn fmt<W: fmt::Write>(&self, f: &mut fmt::Formatter<W>) -> fmt::Result {
        match self {
            Carried::Walked { letter, from, to } => write!(
                f,
                "letter {letter} from {from} to {to}"
            ),
            Carried::Lost { letter, from, to } => {
                write!(f, "letter {letter} from {from} to {to} lost")
            }
            Carried::Again { letter, to } => write!(f, "letter {letter} again to {to}"),
            Carried::Cut { letter, bytes, to } => {
                write!(f, "letter {letter} cut to {bytes} to {to}")
            }
        }
    }
}

impl fmt::Display for Taking {
    ghost output = { λ t. Some (taking_text t) };

    fn fmt<W: fmt::Write>(&self, f: &mut fmt::Formatter<W>) -> fmt::Result {
        match self {
            Taking::Committed { mark, place } => write!(f, "taken in ink {mark} at {place}"),
            Taking::Tentative { mark } => write!(f, "taken in pencil {mark}"),
            Taking::Skipped { why, mark } => write!(f, "passed over {}: {mark}", why.number()),
            Taking::Rejected { why } => write!(f, "kept out {}: {why}", why.number()),
            Taking::Counts {
                taken,
                skipped,
                rejected,
            } => write!(
                f,
                "taken {taken}, passed over {skipped}, kept out {rejected}"
            ),
        }
    }
}
