// Choices of a line's numbers.
ghost use Rattle.std.specs.Prelude.{◌≡◌, slice_index};
ghost use Rattle.console.specs.Requests.{asked_choice, choice_of, choices_of, read_choices};

use super::{RawChoice, RawChoices};
use bookings::limits::MAX_CHOICES;

impl From<[u64; 4]> for RawChoice {
    ghost from_gives = { λ ns c. asked_choice c ≡ choice_of (slice_index ns 0) (slice_index ns 1) (slice_index ns 2) (slice_index ns 3) };

    fn from(numbers: [u64; 4]) -> RawChoice {
        let [hut, night, nights, beds] = numbers;
        RawChoice {
            hut,
            night,
            nights,
            beds,
        }
    }
}

impl RawChoices {
    // Up to four choices of four numbers each.
    pub(crate) fn read(numbers: &[u64]) -> Option<RawChoices>
        ensures { read_choices result ≡ choices_of numbers.now }
    {
        let (fours, rest) = numbers.as_chunks::<4>();
        if !rest.is_empty() || fours.len() > MAX_CHOICES {
            return None;
        }
        let mut all = [RawChoice::from([0; 4]); MAX_CHOICES];
        for (place, four) in fours.iter().enumerate() {
            all[place] = RawChoice::from(*four);
        }
        Some(RawChoices {
            count: fours.len(),
            all,
        })
    }
}
