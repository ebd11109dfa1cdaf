// The replicas of one case, and the rows that tell of them.
use anyhow::anyhow;
use bookings::entry::{Kind, Mark};
use console::mark::RawMark;
use entry_log::vector::Vector;
use network::act::{Act, Done};
use network::outcome::Outcome;
use network::rehearsal::Rehearsal;
use desk::answers;
use replica::replica::Replica;
use replica::summary::Summary;

#[derive(Drop)]
pub struct Case<'a> {
    rt: &'a HostRuntime,
    name: &'a str,
    huts: Rehearsal,
}

impl<'a> Case<'a> {
    pub fn new(rt: &'a HostRuntime, name: &'a str, huts: &[u64]) -> anyhow::Result<Case<'a>> {
        let huts = Rehearsal::new(rt.alloc(), huts)?;
        Ok(Case { rt, name, huts })
    }

    fn play(&mut self, hut: u64, act: Act) -> anyhow::Result<Done> {
        let at = self
            .huts
            .find(hut)
            .ok_or_else(|| anyhow!("no such hut in the case"))?;
        Ok(self.huts.play(self.rt.alloc(), at, &act)?)
    }

    // The replica of a hut, when all that it knows is synced.
    fn shown(&mut self, hut: u64) -> anyhow::Result<&Replica> {
        self.play(hut, Act::Sync)?;
        let at = self
            .huts
            .find(hut)
            .ok_or_else(|| anyhow!("no such hut in the case"))?;
        self.huts
            .shown(at)
            .ok_or_else(|| anyhow!("the hut's journal is not synced"))
    }

    pub fn make(&mut self, hut: u64, kind: Kind) -> anyhow::Result<()> {
        self.play(hut, Act::Make(kind))?;
        Ok(())
    }

    pub fn commit(&mut self) -> anyhow::Result<()> {
        self.play(0, Act::Commit)?;
        Ok(())
    }

    // A letter from one hut for what is said to be known comes to another.
    pub fn carry(&mut self, from: u64, has: Summary, to: u64) -> anyhow::Result<()> {
        if let Done::Written(letter) = self.play(from, Act::Write(has))? {
            self.play(to, Act::Take { letter })?;
        }
        Ok(())
    }

    // A letter from one hut for what another has comes to it.
    pub fn walk(&mut self, from: u64, to: u64) -> anyhow::Result<()> {
        let has = self.shown(to)?.summary();
        self.carry(from, has, to)
    }

    // A row with what an entry has got at a hut.
    pub fn got(&mut self, hut: u64, mark: Mark) -> anyhow::Result<()> {
        let replica = self.shown(hut)?;
        let answer = answers::got(replica, &RawMark::from(mark))?;
        println!(self.rt; "{}: hut {hut}: {answer}", self.name)?;
        Ok(())
    }

    // A row with a hut's beds on a night.
    pub fn night(&mut self, hut: u64, night: u64) -> anyhow::Result<()> {
        let answer = answers::night(self.shown(0)?, hut, night)?;
        println!(self.rt; "{}: {answer}", self.name)?;
        Ok(())
    }

    // A row for each entry of the letter that came last and was skipped.
    pub fn skipped(&self) -> anyhow::Result<()> {
        for outcome in self.huts.outcomes() {
            if let Outcome::Skipped(why, mark) = outcome {
                println!(self.rt; "{}: {mark} is passed over: {why}", self.name)?;
            }
        }
        Ok(())
    }

    // A row that tells whether a guest with a slip is served.
    pub fn visit(&mut self, hut: u64, slip: Vector) -> anyhow::Result<()> {
        match self.play(hut, Act::Visit(slip)) {
            Ok(_) => println!(self.rt; "{}: served", self.name)?,
            Err(why) => println!(self.rt; "{}: not served: {why}", self.name)?,
        }
        Ok(())
    }
}
