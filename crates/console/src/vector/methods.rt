// Vectors of a line's numbers, and which of them are in range.
ghost use Rattle.std.specs.Prelude.{◌≡◌, length, MatchOption, MatchResult, ◌≢◌};
ghost use Rattle.bookings.specs.declared.limits.TheConstants.{HUTS};
ghost use Rattle.console.specs.Checks.{StampsFit, OutOfRange};

use super::RawVector;
use bookings::refusal::Refusal;
use entry_log::vector::Vector;

impl RawVector {
    // A number for each hut.
    pub(crate) fn read(numbers: &[u64]) -> Option<RawVector>
        ensures { MatchOption result (length numbers.now ≢ HUTS) (λ v. (length numbers.now ≡ HUTS) × (v.all ≡ numbers.now)) }
    {
        let all = numbers.try_into().ok()?;
        Some(RawVector { all })
    }

    // The vector, if all its stamps are in range.
    pub fn vector(&self) -> Result<Vector, Refusal>
        ensures { MatchResult result
            (λ v. StampsFit self.now.all × (v.stamps ≡ self.now.all))
            (λ e. OutOfRange e (StampsFit self.now.all)) }
    {
        let stamps = self
            .all
            .try_map(|raw| u32::try_from(raw))
            .map_err(|_| Refusal::OutOfRange)?;
        Ok(Vector::new(stamps))
    }
}
