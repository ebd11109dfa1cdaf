// Why something is refused.
ghost use Rattle.std.specs.Prelude.{◌≡◌, Some};
ghost use Rattle.bookings.specs.Refusals.{number_of};
ghost use Rattle.bookings.specs.Texts.{reason_text};

use std::error::Error;
use std::fmt;

#[derive(Clone, Copy, Debug, PartialEq, Eq)]
pub enum Refusal {
    Damaged = 1,
    OutOfRange,
    Known,
    NotNext,
    Gap,
    NotPrimary,
    SlipAhead,
    Full,
    Unknown,
}

impl Refusal {
    // The number by which it is known.
    pub fn number(self) -> u8
        ensures { result ≡ number_of self }
    {
        self as u8
    }
}

// In words.
impl fmt::Display for Refusal {
    ghost output = { λ why. Some (reason_text why) };

    fn fmt<W: fmt::Write>(&self, f: &mut fmt::Formatter<W>) -> fmt::Result {
        f.write_str(match self {
            Refusal::Damaged => "the letter is damaged",
            Refusal::OutOfRange => "out of range",
            Refusal::Known => "known already",
            Refusal::NotNext => "not the next place in ink",
            Refusal::Gap => "what stood before it is not known",
            Refusal::NotPrimary => "this hut does not ink",
            Refusal::SlipAhead => "the slip knows more than this hut",
            Refusal::Full => "no room for more",
            Refusal::Unknown => "no such entry is known",
        })
    }
}

impl Error for Refusal {}
