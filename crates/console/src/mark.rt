// The mark of an entry in a line: a stamp and a hut, which may be out of range.
ghost use Rattle.std.specs.Prelude.{◌≡◌, ◌+◌, ◌<◌, length, drop, Some, slice_index, MatchOption, MatchResult};
ghost use Rattle.bookings.specs.Plain.{plain_mark};
ghost use Rattle.bookings.specs.Ranges.{MarkOk};
ghost use Rattle.console.specs.Checks.{Fits32, OutOfRange};
ghost use Rattle.console.specs.Requests.{mark_of, asked_mark, raw_mark};
ghost use Rattle.console.specs.Texts.{raw_mark_text};

use bookings::entry::Mark;
use bookings::refusal::Refusal;
use std::fmt;

#[derive(Clone, Copy)]
pub struct RawMark {
    pub stamp: u64,
    pub hut: u64,
}

impl RawMark {
    // The first two numbers, and those behind them.
    pub(crate) fn read(numbers: &[u64]) -> Option<(RawMark, &[u64])>
        ensures { MatchOption result (length numbers.now < 2)
            (λ p. (asked_mark p.0 ≡ mark_of (slice_index numbers.now 0) (slice_index numbers.now 1))
            × (p.1.now ≡ drop 2 numbers.now) × (length p.1.now + 2 ≡ length numbers.now)) }
    {
        let ([stamp, hut], behind) = numbers.split_first_chunk::<2>()?;
        let mark = RawMark {
            stamp: *stamp,
            hut: *hut,
        };
        Some((mark, behind))
    }

    // The mark, if its numbers are in range.
    pub fn mark(&self) -> Result<Mark, Refusal>
        ensures { MatchResult result
            (λ m. MarkOk (asked_mark self.now) × Fits32 self.now.stamp × (plain_mark m ≡ asked_mark self.now))
            (λ e. OutOfRange e (MarkOk (asked_mark self.now) × Fits32 self.now.stamp)) }
    {
        Mark::new(self.stamp, self.hut)
    }
}

impl From<Mark> for RawMark {
    ghost from_gives = { λ m r. r ≡ raw_mark (plain_mark m) };

    fn from(mark: Mark) -> RawMark {
        RawMark {
            stamp: u64::from(mark.stamp),
            hut: u64::from(mark.hut),
        }
    }
}

impl fmt::Display for RawMark {
    ghost output = { λ m. Some (raw_mark_text m) };

    fn fmt<W: fmt::Write>(&self, f: &mut fmt::Formatter<W>) -> fmt::Result {
        write!(f, "{} {}", self.stamp, self.hut)
    }
}
