// The kind of entry that a request asks for, if all its numbers are in range.
ghost use Rattle.std.specs.Prelude.{◌≡◌, MatchResult};
ghost use Rattle.bookings.specs.Plain.{plain_choice, plain_supply, plain_choices};
ghost use Rattle.bookings.specs.Ranges.{ChoiceOk, SupplyOk, ChoicesOk};
ghost use Rattle.console.specs.Checks.{OutOfRange, Checked};
ghost use Rattle.console.specs.Requests.{asked_choice, asked_choices, asked};

use super::{RawChoice, RawChoices, Request};
use bookings::entry::{Choice, Choices, Kind, Stay, Supply};
use bookings::refusal::Refusal;

// Two lines each, that make different types.
impl RawChoice {
    fn wanted(&self) -> Result<Choice, Refusal>
        ensures { MatchResult result
            (λ c. ChoiceOk (asked_choice self.now) × (plain_choice c ≡ asked_choice self.now))
            (λ e. OutOfRange e (ChoiceOk (asked_choice self.now))) }
    {
        let stay = Stay::new(self.hut, self.night, self.nights)?;
        Choice::new(stay, self.beds)
    }

    fn supplied(&self) -> Result<Supply, Refusal>
        ensures { MatchResult result
            (λ s. SupplyOk (asked_choice self.now) × (plain_supply s ≡ asked_choice self.now))
            (λ e. OutOfRange e (SupplyOk (asked_choice self.now))) }
    {
        let stay = Stay::new(self.hut, self.night, self.nights)?;
        Supply::new(stay, self.beds)
    }
}

impl RawChoices {
    fn wanted(&self) -> Result<Choices, Refusal>
        ensures { MatchResult result
            (λ cs. ChoicesOk (asked_choices self.now) × (plain_choices cs ≡ asked_choices self.now))
            (λ e. OutOfRange e (ChoicesOk (asked_choices self.now))) }
    {
        let mut choices = Choices::none();
        for raw in &self.all[..self.count] {
            choices = choices.with(raw.wanted()?)?;
        }
        Ok(choices)
    }
}

impl Request {
    pub fn kind(&self) -> Result<Kind, Refusal>
        ensures { Checked result (asked self.now) }
    {
        match self {
            Request::Book { guest, choices } => {
                let guest = u32::try_from(*guest).map_err(|_| Refusal::OutOfRange)?;
                let choices = choices.wanted()?;
                Ok(Kind::Book { guest, choices })
            }
            Request::Cancel { mark } => {
                let mark = mark.mark()?;
                Ok(Kind::Cancel { mark })
            }
            Request::Change { mark, choices } => {
                let mark = mark.mark()?;
                let choices = choices.wanted()?;
                Ok(Kind::Change { mark, choices })
            }
            Request::Beds { supply } => {
                let supply = supply.supplied()?;
                Ok(Kind::Beds { supply })
            }
        }
    }
}
