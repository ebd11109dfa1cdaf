// Whether two values mean the same; the places of choices that do not count make no difference.
ghost use Rattle.std.specs.Prelude.{◌≡◌, true};
ghost use Rattle.bookings.specs.Plain.{plain};

use super::{Choice, Choices, Entry};

impl PartialEq for Choices {
    ghost use Rattle.std.specs.Cmp.{on_per};
    ghost use Rattle.std.specs.Cmp.Lexicographic.{pointwise, lists_per};
    ghost use Rattle.std.specs.Ordering.{on};
    ghost use Rattle.bookings.specs.Plain.{listed};
    ghost use Rattle.bookings.specs.contracts.entry.ChoicePartialEq.TheImpl.Laws.{laws-law};

    ghost eq = { on listed (pointwise ⟦<Choice as PartialEq>⟧.eq) };

    ghost laws = { on_per listed (lists_per laws-law) };

    fn eq(&self, other: &Choices) -> bool {
        self.as_slice() == other.as_slice()
    }
}

impl Eq for Choices {
    ghost use Rattle.std.specs.Cmp.{on_equiv};
    ghost use Rattle.std.specs.Cmp.Lexicographic.{lists_equiv};
    ghost use Rattle.bookings.specs.Plain.{listed};
    ghost use Rattle.bookings.specs.contracts.entry.ChoiceEq.TheImpl.Laws.{laws-law};

    ghost laws = { on_equiv listed (lists_equiv laws-law) };
}

impl Entry {
    // Whether this is the very entry: what `==` means, in the model's words.
    pub fn is_same(&self, other: &Entry) -> bool
        ensures sound { result ≡ true → plain self.now ≡ plain other.now }
        ensures complete { plain self.now ≡ plain other.now → result ≡ true }
    {
        self == other
    }
}
