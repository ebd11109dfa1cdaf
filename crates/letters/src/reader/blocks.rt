// Numbers, marks and nights: each is a few bytes. One that is out of range is `None`, and its bytes are passed all the same.
ghost use Rattle.std.specs.Prelude.{◌≡◌, ◌+◌, ◌<◌, ◌≤◌, length, drop, slice_index, MatchResult, IfOk, EachIndex};
ghost use Rattle.std.specs.Bool.{then_some};
ghost use Rattle.std.specs.Option.{option_map};
ghost use Rattle.bookings.specs.Plain.{plain_mark, plain_stay, plain_choice, plain_supply};
ghost use Rattle.letters.specs.Answers.{got, wrong, judged};
ghost use Rattle.letters.specs.declared.wrong.Wrong.TheVariants.{Short};
ghost use Rattle.letters.specs.Laws.{Bytes};
ghost use Rattle.letters.specs.Format.{read_one, read_two, read_four, choice_at, read_mark, read_choice};
ghost use Rattle.letters.specs.RangeTests.{mark_in_range, stay_in_range, choice_in_range, supply_in_range};

use super::Reader;
use crate::wrong::Wrong;
use bookings::entry::{Choice, Mark, Stay, Supply};

impl<'a> Reader<'a> {
    pub fn new(bytes: &'a [u8]) -> Reader<'a>
        ensures { result.rest.now ≡ bytes.now }
    {
        Reader { rest: bytes }
    }

    // The bytes that are left.
    pub fn rest(&self) -> &'a [u8]
        ensures { result.now ≡ self.now.rest.now }
    {
        self.rest
    }

    // The next N bytes.
    fn take<const N: usize>(&mut self) -> Result<[u8; N], Wrong>
        ensures left { MatchResult result
            (λ _. (N ≤ length self.old.rest.now) × (self.new.rest.now ≡ drop N self.old.rest.now))
            (λ e. (e ≡ Short) × (length self.old.rest.now < N)) }
        ensures bytes { IfOk result (λ bytes. EachIndex bytes (λ k. slice_index bytes k ≡ slice_index self.old.rest.now k)) }
    {
        let (bytes, rest) = self.rest.split_first_chunk().ok_or(Wrong::Short)?;
        self.rest = rest;
        Ok(*bytes)
    }

    // The next byte; all that are left are bytes.
    pub fn one(&mut self) -> Result<u8, Wrong>
        ensures value { MatchResult result
            (λ n. read_one self.old.rest.now ≡ got n self.new.rest.now)
            (λ e. read_one self.old.rest.now ≡ wrong e) }
        ensures bytes { Bytes self.old.rest.now }
    {
        // `let [byte] = self.take::<1>()?` was tried: with no local that holds the slice, nothing says that what is left are bytes.
        let bytes = self.rest;
        self.take::<1>()?;
        Ok(bytes[0])
    }

    // Two bytes, and below four: a line each over `take`, since no trait says that a number is made of bytes.
    pub fn two(&mut self) -> Result<u16, Wrong>
        ensures { MatchResult result
            (λ n. read_two self.old.rest.now ≡ got n self.new.rest.now)
            (λ e. read_two self.old.rest.now ≡ wrong e) }
    {
        Ok(u16::from_be_bytes(self.take()?))
    }

    pub fn four(&mut self) -> Result<u32, Wrong>
        ensures { MatchResult result
            (λ n. read_four self.old.rest.now ≡ got n self.new.rest.now)
            (λ e. read_four self.old.rest.now ≡ wrong e) }
    {
        Ok(u32::from_be_bytes(self.take()?))
    }

    pub(crate) fn mark(&mut self) -> Result<Option<Mark>, Wrong>
        ensures { MatchResult result
            (λ m. judged mark_in_range (read_mark self.old.rest.now) ≡ got (option_map plain_mark m) self.new.rest.now)
            (λ e. judged mark_in_range (read_mark self.old.rest.now) ≡ wrong e) }
    {
        let [a, b, c, d, hut] = self.take::<5>()?;
        let stamp = u32::from_be_bytes([a, b, c, d]);
        Ok(Mark::new(u64::from(stamp), u64::from(hut)).ok())
    }

    // A stay, if it is in range, and a number of beds.
    fn stay(&mut self) -> Result<(Option<Stay>, u8), Wrong>
        ensures stay { MatchResult result
            (λ v. read_choice self.old.rest.now ≡ got (choice_at self.old.rest.now) self.new.rest.now)
            (λ e. read_choice self.old.rest.now ≡ wrong e) }
        ensures value { IfOk result (λ v. option_map plain_stay v.0 ≡ then_some (stay_in_range (choice_at self.old.rest.now).stay) (choice_at self.old.rest.now).stay) }
        ensures beds { IfOk result (λ v. v.1 ≡ (choice_at self.old.rest.now).beds) }
    {
        let [hut, high, low, nights, beds] = self.take::<5>()?;
        let night = u16::from_be_bytes([high, low]);
        let stay = Stay::new(u64::from(hut), u64::from(night), u64::from(nights)).ok();
        Ok((stay, beds))
    }

    pub(crate) fn supply(&mut self) -> Result<Option<Supply>, Wrong>
        ensures { MatchResult result
            (λ v. judged supply_in_range (read_choice self.old.rest.now) ≡ got (option_map plain_supply v) self.new.rest.now)
            (λ e. judged supply_in_range (read_choice self.old.rest.now) ≡ wrong e) }
    {
        let (stay, beds) = self.stay()?;
        Ok(stay.map(|stay| Supply { stay, beds }))
    }

    pub(crate) fn choice(&mut self) -> Result<Option<Choice>, Wrong>
        ensures { MatchResult result
            (λ v. judged choice_in_range (read_choice self.old.rest.now) ≡ got (option_map plain_choice v) self.new.rest.now)
            (λ e. judged choice_in_range (read_choice self.old.rest.now) ≡ wrong e) }
    {
        let (stay, beds) = self.stay()?;
        Ok(stay.and_then(|stay| Choice::new(stay, u64::from(beds)).ok()))
    }
}
