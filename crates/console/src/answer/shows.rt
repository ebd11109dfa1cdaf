// The text of each answer.
ghost use Rattle.std.specs.Prelude.{Some};
ghost use Rattle.console.specs.Answers.{answer_text, got_text, standing_text, kind_text, expected_text, form_text};

use super::{Answer, Got, KindName, Standing};
use crate::command::Expected;
use crate::verb::Verb;
use std::fmt;

impl fmt::Display for Answer {
    ghost output = { λ a. Some (answer_text a) };

    fn fmt<W: fmt::Write>(&self, f: &mut fmt::Formatter<W>) -> fmt::Result {
        match self {
            Answer::Made { mark } => write!(f, "made {mark}"),
            Answer::Refused { why } => write!(f, "refused {}: {why}", why.number()),
            Answer::Inked { mark, place } => write!(f, "inked {mark} at {place}"),
            Answer::NothingTentative => f.write_str("nothing in pencil"),
            Answer::Have { committed, vector } => write!(f, "have {committed} {vector}"),
            Answer::Night {
                hut,
                night,
                beds,
                booked,
            } => write!(f, "hut {hut} night {night}: {beds} beds, {booked} booked"),
            Answer::EndOfBook => f.write_str("end of book"),
            Answer::Logged {
                place,
                mark,
                standing,
                kind,
            } => write!(f, "{place}: {mark} {standing} {kind}"),
            Answer::EndOfLog => f.write_str("end of line"),
            Answer::Got {
                mark,
                standing,
                got,
            } => write!(f, "{mark} {standing}: {got}"),
            Answer::Served { slip } => write!(f, "served {slip}"),
            Answer::Letter { carried } => write!(f, "{carried}"),
            Answer::Take { taking } => write!(f, "{taking}"),
            Answer::Opened { opened } => write!(f, "{opened}"),
            Answer::Usage { usage } => write!(f, "{usage}"),
            Answer::Error { expected } => write!(f, "error: {expected}"),
        }
    }
}

impl fmt::Display for Got {
    ghost output = { λ g. Some (got_text g) };

    fn fmt<W: fmt::Write>(&self, f: &mut fmt::Formatter<W>) -> fmt::Result {
        match self {
            Got::Choice {
                number,
                hut,
                first,
                last,
                beds,
            } => write!(
                f,
                "choice {number}: hut {hut}, nights {first} to {last}, {beds} beds"
            ),
            Got::Nothing => f.write_str("nothing"),
            Got::Cancelled => f.write_str("cancelled"),
            Got::ChangedBy { mark } => write!(f, "changed by {mark}"),
            Got::NotABooking => f.write_str("not a booking"),
        }
    }
}

impl fmt::Display for Standing {
    ghost output = { λ s. Some (standing_text s) };

    fn fmt<W: fmt::Write>(&self, f: &mut fmt::Formatter<W>) -> fmt::Result {
        f.write_str(match self {
            Standing::Tentative => "in pencil",
            Standing::Committed => "in ink",
        })
    }
}

impl fmt::Display for KindName {
    ghost output = { λ k. Some (kind_text k) };

    fn fmt<W: fmt::Write>(&self, f: &mut fmt::Formatter<W>) -> fmt::Result {
        f.write_str(match self {
            KindName::Book => "book",
            KindName::Cancel => "cancel",
            KindName::Change => "change",
            KindName::Beds => "beds",
        })
    }
}

impl fmt::Display for Expected {
    ghost output = { λ e. Some (expected_text e) };

    fn fmt<W: fmt::Write>(&self, f: &mut fmt::Formatter<W>) -> fmt::Result {
        match self {
            Expected::Command => f.write_str(
                "expected a command: huts, at, book, cancel, change, beds, ink, have, letter, take, show, line, got, serve, walk, lose, again, cut, stop or help",
            ),
            Expected::HutCommand => f.write_str(
                "expected a command: book, cancel, change, beds, ink, have, letter, take, show, line, got, serve or help",
            ),
            Expected::Form { verb } => write!(f, "expected: {verb}"),
            Expected::Take => f.write_str("expected: take HEX"),
            Expected::HutsFirst => f.write_str("expected huts first"),
            Expected::HutsOnce => f.write_str("expected huts only once"),
        }
    }
}

// A verb with what stands behind it. A table beside that of `read_verb`: a form has more than the verb's name.
impl fmt::Display for Verb {
    ghost output = { λ v. Some (form_text v) };

    fn fmt<W: fmt::Write>(&self, f: &mut fmt::Formatter<W>) -> fmt::Result {
        f.write_str(match self {
            Verb::Huts => "huts, then one to four huts",
            Verb::At => "at I",
            Verb::Book => "book G, then up to four choices H N K B",
            Verb::Cancel => "cancel S H",
            Verb::Change => "change S H, then up to four choices H N K B",
            Verb::Beds => "beds H N K B",
            Verb::Ink => "ink",
            Verb::Have => "have",
            Verb::Show => "show, or show H N",
            Verb::Line => "line",
            Verb::Got => "got S H",
            Verb::Serve => "serve S0 .. S15",
            Verb::Letter => "letter C S0 .. S15",
            Verb::Walk => "walk I J",
            Verb::Lose => "lose I J",
            Verb::Again => "again K J",
            Verb::Cut => "cut K J N",
            Verb::Stop => "stop I N",
            Verb::Help => "help",
        })
    }
}
