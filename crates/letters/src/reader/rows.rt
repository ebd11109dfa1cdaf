// Many values, one behind the other.
ghost use Rattle.std.specs.Prelude.{◌≡◌, ◌-◌, ◌≤◌, if◌then◌else◌, map, length, MatchResult, IfOk, nat_eq};
ghost use Rattle.bookings.specs.Refusals.{number_of};
ghost use Rattle.entry_log.specs.Waits.{plain_waiting};
ghost use Rattle.letters.specs.Answers.{got, wrong, read_times};
ghost use Rattle.letters.specs.Letters.{read_stamps, read_waiting};
ghost use Rattle.letters.specs.Rows.{OwnRow, read_row, end_of, through, halted, cut};

use super::Reader;
use crate::coded::Decoded;
use crate::wrong::Wrong;
use bookings::limits::HUTS;
use bookings::refusal::Refusal;
use entry_log::vector::Vector;
use entry_log::waiting::Waiting;

impl<'a> Reader<'a> {
    // Reads a value into each of some places.
    pub(crate) fn fill<V: Decoded>(&mut self, places: &mut [V]) -> Result<(), Wrong>
        ensures { MatchResult result
            (λ _. read_times V.reading (length places.old) self.old.rest.now ≡ got (map V.plain places.new) self.new.rest.now)
            (λ e. read_times V.reading (length places.old) self.old.rest.now ≡ wrong e) }
    {
        for place in places.iter_mut() {
            *place = V::read(self)?;
        }
        Ok(())
    }

    // A stamp for each hut.
    fn stamps(&mut self) -> Result<[u32; HUTS], Wrong>
        ensures { MatchResult result
            (λ v. read_stamps self.old.rest.now ≡ got v self.new.rest.now)
            (λ e. read_stamps self.old.rest.now ≡ wrong e) }
    {
        let mut all = [0; HUTS];
        self.fill(&mut all)?;
        Ok(all)
    }

    // The next tentative entry with what stood before it.
    pub fn waiting(&mut self) -> Result<Waiting, Wrong>
        ensures { MatchResult result
            (λ v. read_waiting self.old.rest.now ≡ got (plain_waiting v) self.new.rest.now)
            (λ e. read_waiting self.old.rest.now ≡ wrong e) }
    {
        let entry = self.entry()?;
        let stamps = self.stamps()?;
        let stood = Vector::new(stamps);
        Ok(Waiting { entry, stood })
    }

    // Goes past so many values, or up to the first that is out of range; says how many are kept out.
    pub(crate) fn pass<V: Decoded>(&mut self, count: u16) -> Result<u16, Refusal>
        ensures ends { MatchResult result
            (λ out. end_of (read_row V.reading count self.old.rest.now) ≡ (if nat_eq out 0 then through self.new.rest.now else halted out))
            (λ e. (number_of e ≡ 1) × (end_of (read_row V.reading count self.old.rest.now) ≡ cut)) }
        ensures passed { IfOk result (λ out. OwnRow V.reading (count - out) self.old.rest.now self.new.rest.now) }
        ensures few { IfOk result (λ out. out ≤ count) }
    {
        // Counted, since how many are left is the answer where one is out of range.
        for i in 0..count {
            let from = self.rest;
            match V::read(self) {
                Ok(_) => {}
                Err(Wrong::Short) => return Err(Refusal::Damaged),
                Err(Wrong::Out) => {
                    self.rest = from;
                    return Ok(count - i);
                }
            }
        }
        Ok(0)
    }
}
