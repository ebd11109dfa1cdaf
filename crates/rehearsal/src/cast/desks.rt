// The hut that is meant, as the lines of a hut know it.
ghost use Rattle.network.specs.Stages.{Unsynced, huts_of, state_at};
ghost use Rattle.rehearsal.specs.Telling.{cast_found, cast_told};
ghost use Rattle.rehearsal.specs.Carrying.{BesideAt, FoundAt, KeptAt, placing};

use super::Cast;
use bookings::entry::{Kind, Mark};
use desk::calls::Desk;
use desk::page::Page;
use network::act::{Act, Done};
use network::outcome::Outcome;
use network::unplayed::Unplayed;
use replica::replica::Replica;
use replica::summary::Summary;

// No journal in memory fails. Of each act the other answers never come, as is proved.
impl Desk for Cast {
    ghost state = { λ c. state_at (huts_of c.rehearsal.stage) c.current };

    ghost keeps = { λ c k. KeptAt (huts_of c.rehearsal.stage) c.current k };

    ghost finds = { λ c bs. FoundAt (huts_of c.rehearsal.stage) c.current bs };

    ghost beside = { λ c kept. BesideAt (huts_of c.rehearsal.stage) c.current kept };

    ghost places = { λ c. placing (huts_of c.rehearsal.stage) c.current };

    ghost unsynced = { λ c. Unsynced (huts_of c.rehearsal.stage) c.current };

    ghost shut = { λ _. ⊥ };

    ghost came = { λ c. c.rehearsal.stage.report.outcomes.items };

    ghost kept_out = { λ c. c.rehearsal.stage.report.rejected };

    fn make(&mut self, kind: Kind) -> Result<Mark, Unplayed> {
        match self.play(self.heap, &Act::Make(kind))? {
            Done::Made(mark) => Ok(mark),
            _ => unreachable!(),
        }
    }

    fn commit(&mut self) -> Result<Option<Mark>, Unplayed> {
        match self.play(self.heap, &Act::Commit)? {
            Done::Committed(first) => Ok(first),
            _ => unreachable!(),
        }
    }

    fn sync(&mut self) -> Result<(), Unplayed> {
        self.play(self.heap, &Act::Sync)?;
        Ok(())
    }

    fn write(&mut self, has: &Summary, page: &mut Page) -> Result<(), Unplayed> {
        let Done::Written(number) = self.play(self.heap, &Act::Write(*has))? else {
            return Err(Unplayed::Memory);
        };
        let letter = self.letter(number).ok_or(Unplayed::Memory)?;
        page.copy(letter)?;
        Ok(())
    }

    fn hear(&mut self, bytes: &[u8]) -> Result<(), Unplayed> {
        Cast::hear(self, bytes)
    }

    fn shown(&self) -> Option<&Replica> {
        self.meant()
    }

    fn outcomes(&self) -> &[Outcome] {
        Cast::outcomes(self)
    }

    fn rejected(&self) -> Option<usize> {
        Cast::rejected(self)
    }

    ghost told_by = { cast_told };

    ghost finds_only = { cast_found };
}
