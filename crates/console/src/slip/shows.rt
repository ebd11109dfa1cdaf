// The text of each answer of a slip.
ghost use Rattle.std.specs.Prelude.{Some};
ghost use Rattle.console.specs.SlipAnswers.{slip_answer_text, slip_expected_text, slip_form_text};

use super::{SlipAnswer, SlipExpected, SlipVerb};
use crate::answer::Answer;
use std::fmt;

impl fmt::Display for SlipAnswer {
    ghost output = { λ a. Some (slip_answer_text a) };

    fn fmt<W: fmt::Write>(&self, f: &mut fmt::Formatter<W>) -> fmt::Result {
        match self {
            SlipAnswer::Slip { slip } => write!(f, "slip {slip}"),
            SlipAnswer::Yes => f.write_str("yes"),
            SlipAnswer::Refused { why } => write!(f, "{}", Answer::Refused { why: *why }),
            SlipAnswer::Usage => f.write_str("slip\nmay S0 .. S15\nadd S0 .. S15\nhelp"),
            SlipAnswer::Error { expected } => write!(f, "error: {expected}"),
        }
    }
}

impl fmt::Display for SlipExpected {
    ghost output = { λ e. Some (slip_expected_text e) };

    fn fmt<W: fmt::Write>(&self, f: &mut fmt::Formatter<W>) -> fmt::Result {
        match self {
            SlipExpected::Command => f.write_str("expected a command: slip, may, add or help"),
            SlipExpected::Form { verb } => write!(f, "expected: {verb}"),
        }
    }
}

// A verb with what stands behind it.
impl fmt::Display for SlipVerb {
    ghost output = { λ v. Some (slip_form_text v) };

    fn fmt<W: fmt::Write>(&self, f: &mut fmt::Formatter<W>) -> fmt::Result {
        f.write_str(match self {
            SlipVerb::Slip => "slip",
            SlipVerb::May => "may S0 .. S15",
            SlipVerb::Add => "add S0 .. S15",
            SlipVerb::Help => "help",
        })
    }
}
