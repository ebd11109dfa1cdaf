// Entries made of numbers from outside, which may be out of range.
ghost use Rattle.std.specs.Prelude.{◌≡◌, ◌+◌, ◌^◌, ◌<◌, ◌≤◌, [], ◌∷◌, ◌++◌, length, MatchResult};
ghost use Rattle.std.specs.Option.{option_map};
ghost use Rattle.bookings.specs.Books.{same_mark, named_by};
ghost use Rattle.bookings.specs.Plain.{plain_mark, plain_stay, plain_choice, plain_supply, plain_kind, listed};
ghost use Rattle.bookings.specs.Ranges.{MarkOk, StayOk, ChoiceOk, SupplyOk};
ghost use Rattle.bookings.specs.Refusals.{number_of};

use super::{Choice, Choices, Kind, Mark, Stay, Supply};
use crate::limits::{HUTS, MAX_CHOICE_BEDS, MAX_CHOICES, MAX_STAY_NIGHTS, NIGHTS};
use crate::refusal::Refusal;

// `as u8` and `as u16` stand behind tests that are narrower than the types: nothing is lost, and `try_from` would bring an error that cannot come.

impl Mark {
    pub fn new(stamp: u64, hut: u64) -> Result<Mark, Refusal>
        ensures { MatchResult result
            (λ m. plain_mark m ≡ record { stamp = stamp; hut = hut })
            (λ e. (number_of e ≡ 2) × ((stamp < 2 ^ 32) × MarkOk (record { stamp = stamp; hut = hut }) → ⊥)) }
    {
        let stamp = u32::try_from(stamp).map_err(|_| Refusal::OutOfRange)?;
        if stamp < 1 || hut >= HUTS as u64 {
            return Err(Refusal::OutOfRange);
        }
        Ok(Mark {
            stamp,
            hut: hut as u8,
        })
    }

    // What `==` means, in the model's words.
    pub fn is_same(&self, other: &Mark) -> bool
        ensures { result ≡ same_mark (plain_mark self.now) (plain_mark other.now) }
    {
        self == other
    }
}

impl Kind {
    // The mark that a cancellation or a change names.
    pub fn named(&self) -> Option<Mark>
        ensures { option_map plain_mark result ≡ named_by (plain_kind self.now) }
    {
        match self {
            Kind::Cancel { mark } | Kind::Change { mark, .. } => Some(*mark),
            Kind::Book { .. } | Kind::Beds { .. } => None,
        }
    }
}

impl Stay {
    pub fn new(hut: u64, night: u64, nights: u64) -> Result<Stay, Refusal>
        ensures { MatchResult result
            (λ s. plain_stay s ≡ record { hut = hut; night = night; nights = nights })
            (λ e. (number_of e ≡ 2) × (StayOk (record { hut = hut; night = night; nights = nights }) → ⊥)) }
    {
        if hut >= HUTS as u64
            || nights < 1
            || nights > MAX_STAY_NIGHTS as u64
            || night > NIGHTS as u64 - nights
        {
            return Err(Refusal::OutOfRange);
        }
        Ok(Stay {
            hut: hut as u8,
            night: night as u16,
            nights: nights as u8,
        })
    }
}

impl Choice {
    pub fn new(stay: Stay, beds: u64) -> Result<Choice, Refusal>
        ensures { MatchResult result
            (λ c. plain_choice c ≡ record { stay = plain_stay stay; beds = beds })
            (λ e. (number_of e ≡ 2) × (ChoiceOk (record { stay = plain_stay stay; beds = beds }) → ⊥)) }
    {
        if beds < 1 || beds > MAX_CHOICE_BEDS as u64 {
            return Err(Refusal::OutOfRange);
        }
        Ok(Choice {
            stay,
            beds: beds as u8,
        })
    }
}

impl Supply {
    pub fn new(stay: Stay, beds: u64) -> Result<Supply, Refusal>
        ensures { MatchResult result
            (λ s. plain_supply s ≡ record { stay = plain_stay stay; beds = beds })
            (λ e. (number_of e ≡ 2) × (SupplyOk (record { stay = plain_stay stay; beds = beds }) → ⊥)) }
    {
        let beds = u8::try_from(beds).map_err(|_| Refusal::OutOfRange)?;
        Ok(Supply { stay, beds })
    }
}

impl Choices {
    pub fn none() -> Choices
        ensures { listed result ≡ [] }
    {
        let stay = Stay {
            hut: 0,
            night: 0,
            nights: 1,
        };
        Choices {
            count: 0,
            all: [Choice { stay, beds: 1 }; MAX_CHOICES],
        }
    }

    // One choice more, wanted less than those before it; a fifth is out of range.
    pub fn with(mut self, choice: Choice) -> Result<Choices, Refusal>
        ensures { MatchResult result
            (λ cs. listed cs ≡ listed self ++ choice ∷ [])
            (λ e. (number_of e ≡ 2) × (length (listed self) ≡ MAX_CHOICES)) }
    {
        if usize::from(self.count) >= MAX_CHOICES {
            return Err(Refusal::OutOfRange);
        }
        self.all[usize::from(self.count)] = choice;
        self.count += 1;
        Ok(self)
    }

    // The choices that count, in their order.
    pub fn as_slice(&self) -> &[Choice]
        ensures { result.now ≡ listed self.now }
    {
        &self.all[..usize::from(self.count)]
    }
}
