// A table with a row for each call of a replica and each number by which it refuses.
#![tactic(auto)]

use anyhow::anyhow;
use bookings::book::CAPACITY;
use bookings::entry::{Choices, Entry, Kind, Mark};
use bookings::refusal::Refusal;
use console::answer::Answer;
use entry_log::vector::Vector;
use replica::fault::Fault;
use replica::replica::Replica;
use std::alloc::Global;

// One row: a call, and how it refused, if it did.
fn row<T: Copy>(out: &impl Print, call: &str, done: Result<T, Refusal>) -> anyhow::Result<()> {
    match done {
        Ok(_) => println!(out; "{call}: done")?,
        Err(why) => {
            let answer = Answer::Refused { why };
            println!(out; "{call}: {answer}")?;
        }
    }
    Ok(())
}

// A booking that wants nothing.
fn booking() -> Kind {
    Kind::Book {
        guest: 1,
        choices: Choices::none(),
    }
}

fn entry(stamp: u64, hut: u64) -> anyhow::Result<Entry> {
    let mark = Mark::new(stamp, hut)?;
    let kind = booking();
    Ok(Entry { mark, kind })
}

// A vector that knows hut 3 up to the stamp 4.
fn ahead() -> Vector {
    Vector::new([0, 0, 0, 4, 0, 0, 0, 0, 0, 0, 0, 0, 0, 0, 0, 0])
}

// Where the rows go, and whose calls they are.
#[derive(Drop)]
struct Table<'a, P: Print> {
    out: &'a P,
    replica: Replica,
}

impl<'a, P: Print> Table<'a, P> {
    fn make(&mut self, call: &str, kind: Kind) -> anyhow::Result<()> {
        row(self.out, call, self.replica.make(kind))
    }

    fn commit(&mut self, call: &str) -> anyhow::Result<()> {
        row(self.out, call, self.replica.commit())
    }

    fn tentative(&mut self, call: &str, entry: Entry, stood: Vector) -> anyhow::Result<()> {
        row(self.out, call, self.replica.take_tentative(entry, &stood))
    }

    fn committed(&mut self, call: &str, place: usize, entry: Entry) -> anyhow::Result<()> {
        row(self.out, call, self.replica.take_committed(place, entry))
    }

    fn make_and_ask(&mut self) -> anyhow::Result<()> {
        let unknown = Mark::new(9, 9)?;
        self.make("make a cancel of no entry", Kind::Cancel { mark: unknown })?;
        self.make("make a booking", booking())?;
        self.commit("commit away from hut 0")?;
        let replica = &self.replica;
        row(self.out, "night of hut 16", replica.night(16, 0))?;
        row(self.out, "night 366", replica.night(0, 366))?;
        row(self.out, "got of no entry", replica.got(&unknown))?;
        row(
            self.out,
            "serve a slip that is ahead",
            replica.serve(ahead()),
        )?;
        row(self.out, "serve a new slip", replica.serve(Vector::zero()))
    }

    fn take_tentative(&mut self) -> anyhow::Result<()> {
        let none = Vector::zero();
        self.tentative("take a tentative entry", entry(1, 2)?, none)?;
        self.tentative("take it again", entry(1, 2)?, ahead())?;
        self.tentative("take one with a gap", entry(5, 3)?, ahead())?;
        self.tentative("take the last stamp", entry(4294967295, 3)?, none)
    }

    fn take_committed(&mut self) -> anyhow::Result<()> {
        let last = entry(4294967295, 3)?;
        self.committed("take a later place", 1, last)?;
        self.committed("take the next place", 0, entry(1, 2)?)?;
        self.committed("take that again", 0, entry(1, 2)?)?;
        self.committed("take an earlier place", 0, entry(7, 3)?)?;
        self.committed("take the last stamp in its place", 1, last)
    }

    // A stamp that nothing can follow.
    fn out_of_stamps(&mut self) -> anyhow::Result<()> {
        let last = entry(4294967294, 2)?;
        self.tentative("take the stamp before the last", last, Vector::zero())?;
        self.make("make with no stamp left", booking())
    }

    // As many entries as a replica can have.
    fn fill(&mut self) {
        // A refusal here would show in the rows that follow: the replica would have room.
        for _ in 0..CAPACITY {
            let _ = self.replica.make(booking());
        }
    }

    fn out_of_room(&mut self) -> anyhow::Result<()> {
        let unknown = Mark::new(9, 9)?;
        let other = entry(9, 9)?;
        self.make("make in a full log", booking())?;
        self.make(
            "make a cancel of no entry in a full log",
            Kind::Cancel { mark: unknown },
        )?;
        self.tentative(
            "take a tentative entry in a full log",
            other,
            Vector::zero(),
        )?;
        self.tentative("take one with a gap in a full log", other, ahead())?;
        self.committed("take a committed entry in a full log", 0, other)?;
        self.committed("take a known one in a full log", 0, entry(1, 0)?)?;
        self.commit("commit in a full log")
    }
}

fn open(heap: Global, hut: u8) -> anyhow::Result<Replica> {
    Replica::new(heap, hut).map_err(|_| anyhow!("no replica"))
}

fn open_hut_16(heap: Global) -> Result<(), Refusal> {
    match Replica::new(heap, 16) {
        Err(Fault::Refused(why)) => Err(why),
        // Without memory the row would say `done`, and differ from its file.
        _ => Ok(()),
    }
}

fn main(rt: HostRuntime) -> anyhow::Result<()> {
    let heap = rt.alloc();
    row(&rt, "open hut 16", open_hut_16(heap))?;
    let mut table = Table {
        out: &rt,
        replica: open(heap, 1)?,
    };
    table.make_and_ask()?;
    table.take_tentative()?;
    table.take_committed()?;
    table.out_of_stamps()?;
    let mut full = Table {
        out: &rt,
        replica: open(heap, 0)?,
    };
    full.fill();
    full.out_of_room()
}
