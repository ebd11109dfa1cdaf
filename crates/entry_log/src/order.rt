// The order of marks, and where a mark stands in a list of entries in that order.
ghost use Rattle.std.specs.Prelude.{◌≡◌, ◌==◌, ◌<◌, ◌≤◌, true, false, map, length, MatchOption, slice_index_or};
ghost use Rattle.bookings.specs.Books.{same_mark};
ghost use Rattle.bookings.specs.Plain.{PlainEntry, plain, plain_mark};
ghost use Rattle.entry_log.specs.Logs.{has, spot};
ghost use Rattle.entry_log.specs.Order.{before, ascends};

use bookings::entry::{Entry, Mark};

/// How many of the last entries are looked at before those in front of them.
const NEAR: usize = 16;

// Whether a mark comes before another: by its stamp, and at one stamp by its hut. What `<` means, in the model's words.
pub(crate) fn is_before(a: &Mark, b: &Mark) -> bool
    ensures { result ≡ before (plain_mark a.now) (plain_mark b.now) }
{
    a < b
}

// The place of a mark among entries that are sorted, by halving.
fn halve_to(part: &[Entry], mark: &Mark) -> usize
    requires { ascends (map plain part.now) ≡ true }
    ensures value { result ≡ spot (plain_mark mark.now) (map plain part.now) }
    ensures within { result ≤ length part.now }
{
    part.partition_point(|entry| !is_before(mark, &entry.mark))
}

// Whether a mark comes before none of some entries that are sorted.
fn is_behind(part: &[Entry], mark: &Mark) -> bool
    requires { ascends (map plain part.now) ≡ true }
    ensures { result ≡ (spot (plain_mark mark.now) (map plain part.now) == length part.now) }
{
    match part.last() {
        Some(last) => !is_before(mark, &last.mark),
        None => true,
    }
}

// The place of a mark among entries that are sorted: behind the last that it does not come before.
pub(crate) fn spot_of(part: &[Entry], mark: &Mark) -> usize
    requires { ascends (map plain part.now) ≡ true }
    ensures { result ≡ spot (plain_mark mark.now) (map plain part.now) }
{
    // Entries mostly come in order: then only the last is looked at.
    if is_behind(part, mark) {
        return part.len();
    }
    // Else they mostly belong before few.
    let (far, near) = part.split_at(part.len().saturating_sub(NEAR));
    if is_behind(far, mark) {
        far.len() + halve_to(near, mark)
    } else {
        halve_to(far, mark)
    }
}

// The place of the entry with a mark.
pub(crate) fn position_of(part: &[Entry], mark: &Mark) -> Option<usize>
    ensures { MatchOption result (has (plain_mark mark.now) (map plain part.now) ≡ false)
        (λ p. (p < length part.now) × ((d : PlainEntry) → same_mark (plain_mark mark.now) (slice_index_or (map plain part.now) p d).mark ≡ true)) }
{
    part.iter().position(|entry| mark == &entry.mark)
}
