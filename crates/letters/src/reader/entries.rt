// Entries, part by part.
ghost use Rattle.std.specs.Prelude.{◌≡◌, map, length, MatchResult};
ghost use Rattle.std.specs.Bool.{then_some};
ghost use Rattle.std.specs.List.{list_all};
ghost use Rattle.std.specs.Option.{option_map};
ghost use Rattle.bookings.specs.Plain.{plain_choice, plain_choices, plain_kind, plain};
ghost use Rattle.letters.specs.Answers.{got, wrong, judged, read_times};
ghost use Rattle.letters.specs.Format.{read_choice, read_choices, read_book, read_cancel, read_change, read_beds, read_kind, reads};
ghost use Rattle.letters.specs.RangeTests.{choice_in_range, choices_in_range, kind_in_range};

use super::Reader;
use crate::wrong::Wrong;
use bookings::entry::{Choice, Choices, Entry, Kind};
use bookings::limits::MAX_CHOICES;

// `book`, `cancel`, `change` and `beds` each read the parts of their kind and make that kind: over one function each part would be named twice.
impl<'a> Reader<'a> {
    // Choices into some places, and whether all are in range: a place keeps what it had where one is not.
    fn choices_into(&mut self, places: &mut [Choice]) -> Result<bool, Wrong>
        ensures { MatchResult result
            (λ b. judged (list_all choice_in_range) (read_times read_choice (length places.old) self.old.rest.now) ≡ got (then_some b (map plain_choice places.new)) self.new.rest.now)
            (λ e. judged (list_all choice_in_range) (read_times read_choice (length places.old) self.old.rest.now) ≡ wrong e) }
    {
        let mut in_range = true;
        for place in places.iter_mut() {
            match self.choice()? {
                Some(choice) => *place = choice,
                None => in_range = false,
            }
        }
        Ok(in_range)
    }

    fn choices(&mut self) -> Result<Option<Choices>, Wrong>
        ensures { MatchResult result
            (λ v. judged choices_in_range (read_choices self.old.rest.now) ≡ got (option_map plain_choices v) self.new.rest.now)
            (λ e. judged choices_in_range (read_choices self.old.rest.now) ≡ wrong e) }
    {
        let count = self.one()?;
        if usize::from(count) > MAX_CHOICES {
            return Err(Wrong::Out);
        }
        let mut all = Choices::none().all;
        let in_range = self.choices_into(&mut all[..usize::from(count)])?;
        Ok(in_range.then_some(Choices { count, all }))
    }

    fn book(&mut self) -> Result<Option<Kind>, Wrong>
        ensures { MatchResult result
            (λ v. judged kind_in_range (read_book self.old.rest.now) ≡ got (option_map plain_kind v) self.new.rest.now)
            (λ e. judged kind_in_range (read_book self.old.rest.now) ≡ wrong e) }
    {
        let guest = self.four()?;
        let choices = self.choices()?;
        Ok(choices.map(|choices| Kind::Book { guest, choices }))
    }

    fn cancel(&mut self) -> Result<Option<Kind>, Wrong>
        ensures { MatchResult result
            (λ v. judged kind_in_range (read_cancel self.old.rest.now) ≡ got (option_map plain_kind v) self.new.rest.now)
            (λ e. judged kind_in_range (read_cancel self.old.rest.now) ≡ wrong e) }
    {
        let mark = self.mark()?;
        Ok(mark.map(|mark| Kind::Cancel { mark }))
    }

    fn change(&mut self) -> Result<Option<Kind>, Wrong>
        ensures { MatchResult result
            (λ v. judged kind_in_range (read_change self.old.rest.now) ≡ got (option_map plain_kind v) self.new.rest.now)
            (λ e. judged kind_in_range (read_change self.old.rest.now) ≡ wrong e) }
    {
        let mark = self.mark()?;
        let choices = self.choices()?;
        Ok(
            mark.zip(choices)
                .map(|(mark, choices)| Kind::Change { mark, choices }),
        )
    }

    fn beds(&mut self) -> Result<Option<Kind>, Wrong>
        ensures { MatchResult result
            (λ v. judged kind_in_range (read_beds self.old.rest.now) ≡ got (option_map plain_kind v) self.new.rest.now)
            (λ e. judged kind_in_range (read_beds self.old.rest.now) ≡ wrong e) }
    {
        let supply = self.supply()?;
        Ok(supply.map(|supply| Kind::Beds { supply }))
    }

    fn kind(&mut self) -> Result<Option<Kind>, Wrong>
        ensures { MatchResult result
            (λ v. judged kind_in_range (read_kind self.old.rest.now) ≡ got (option_map plain_kind v) self.new.rest.now)
            (λ e. judged kind_in_range (read_kind self.old.rest.now) ≡ wrong e) }
    {
        // The format's own bytes, which stand once here and once in `put_kind`: an enum of them would be matched a second time.
        match self.one()? {
            1 => self.book(),
            2 => self.cancel(),
            3 => self.change(),
            4 => self.beds(),
            _ => Err(Wrong::Out),
        }
    }

    // The next entry: its bytes are all read before its ranges are judged. What is left after one that is wrong is not said.
    pub fn entry(&mut self) -> Result<Entry, Wrong>
        ensures { MatchResult result
            (λ v. reads self.old.rest.now ≡ got (plain v) self.new.rest.now)
            (λ e. reads self.old.rest.now ≡ wrong e) }
    {
        let mark = self.mark()?;
        let kind = self.kind()?;
        let (mark, kind) = mark.zip(kind).ok_or(Wrong::Out)?;
        Ok(Entry { mark, kind })
    }
}
