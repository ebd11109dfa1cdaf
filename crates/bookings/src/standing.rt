// The booking that a mark names.
ghost use Rattle.std.specs.Prelude.{◌≡◌, ◌<◌, map, length, IfSome, slice_index_or};
ghost use Rattle.std.specs.Option.{option_map};
ghost use Rattle.bookings.specs.Books.{place_from, standing};
ghost use Rattle.bookings.specs.Outcomes.{holds, nothing, plain_grant, plain_outcome};
ghost use Rattle.bookings.specs.Plain.{plain_mark};
ghost use Rattle.bookings.specs.Views.{plain_standing};

use crate::entry::Mark;
use crate::outcome::{Outcome, Standing};

// The place of the first entry that has a mark.
pub(crate) fn place_of(marks: &[Mark], mark: &Mark) -> Option<usize>
    ensures value { result ≡ place_from 0 (plain_mark mark.now) (map plain_mark marks.now) }
    ensures within { IfSome result (λ p. p < length marks.now) }
{
    marks.iter().position(|m| mark == m)
}

// The booking with a mark, if it holds a choice.
pub(crate) fn find_standing(marks: &[Mark], outcomes: &[Outcome], mark: &Mark) -> Option<Standing>
    requires { length marks.now ≡ length outcomes.now }
    ensures value { option_map plain_standing result ≡ standing (map plain_mark marks.now) (map plain_outcome outcomes.now) (plain_mark mark.now) }
    ensures there { IfSome result (λ s. (s.place < length outcomes.now) × (slice_index_or (map plain_outcome outcomes.now) s.place nothing ≡ holds (plain_grant s.grant))) }
{
    let place = place_of(marks, mark)?;
    let grant = outcomes[place].held()?;
    Some(Standing { place, grant })
}
