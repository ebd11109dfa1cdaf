// The cases. Night 9 is asked for in each.
use crate::stage::Case;
use bookings::entry::{Choice, Choices, Kind, Mark, Stay, Supply};
use bookings::refusal::Refusal;
use entry_log::vector::Vector;
use replica::summary::Summary;

// These choices, and then 20 beds of a hut.
fn with(choices: Choices, hut: u64) -> Result<Choices, Refusal> {
    let stay = Stay::new(hut, 9, 1)?;
    choices.with(Choice::new(stay, 20)?)
}

fn book(guest: u32, choices: Choices) -> Kind {
    Kind::Book { guest, choices }
}

// Two huts book the same beds, and hear of each other: the lower mark is first.
pub fn alike(rt: &HostRuntime) -> anyhow::Result<()> {
    let five = with(Choices::none(), 5)?;
    let mut case = Case::new(rt, "A", &[1, 2])?;
    case.make(1, book(1, five))?;
    case.make(2, book(2, with(five, 6)?))?;
    case.walk(1, 2)?;
    case.walk(2, 1)?;
    for hut in [1, 2] {
        case.got(hut, Mark::new(1, 1)?)?;
        case.got(hut, Mark::new(1, 2)?)?;
    }
    Ok(())
}

// The primary commits the higher mark before it hears of the lower one: what is committed stands first.
pub fn late(rt: &HostRuntime) -> anyhow::Result<()> {
    let five = with(Choices::none(), 5)?;
    let mut case = Case::new(rt, "B", &[0, 1, 2])?;
    case.make(1, book(1, five))?;
    case.make(2, book(2, with(five, 6)?))?;
    case.walk(2, 0)?;
    case.commit()?;
    case.got(0, Mark::new(1, 2)?)?;
    case.walk(1, 0)?;
    case.commit()?;
    case.got(0, Mark::new(1, 1)?)
}

// A cancel comes alone, without the booking that its maker knew.
pub fn gone_first(rt: &HostRuntime) -> anyhow::Result<()> {
    let mut case = Case::new(rt, "C", &[0, 3, 7])?;
    let mark = Mark::new(1, 3)?;
    case.make(3, book(1, with(Choices::none(), 5)?))?;
    case.walk(3, 7)?;
    case.make(7, Kind::Cancel { mark })?;
    let mut vector = Vector::zero();
    vector.note(&mark);
    let has = Summary {
        committed: 0,
        vector,
    };
    case.carry(7, has, 0)?;
    case.skipped()
}

// Fewer beds than are booked on one of two nights.
pub fn cut_back(rt: &HostRuntime) -> anyhow::Result<()> {
    let supply = Supply::new(Stay::new(5, 9, 2)?, 10)?;
    let mut case = Case::new(rt, "D", &[0])?;
    case.make(0, book(1, with(Choices::none(), 5)?))?;
    case.make(0, Kind::Beds { supply })?;
    case.night(5, 9)?;
    case.night(5, 10)
}

// A change for beds that are not free.
pub fn kept(rt: &HostRuntime) -> anyhow::Result<()> {
    let mut case = Case::new(rt, "E", &[0])?;
    let choices = with(Choices::none(), 6)?;
    let mark = Mark::new(1, 0)?;
    case.make(0, book(1, with(Choices::none(), 5)?))?;
    case.make(0, book(2, choices))?;
    case.make(0, Kind::Change { mark, choices })?;
    case.got(0, mark)?;
    case.got(0, Mark::new(3, 0)?)
}

// A guest that knows more than the hut.
pub fn ahead(rt: &HostRuntime) -> anyhow::Result<()> {
    let mut case = Case::new(rt, "F", &[1, 7])?;
    case.make(7, book(1, with(Choices::none(), 5)?))?;
    case.walk(7, 1)?;
    let mut slip = Vector::zero();
    slip.note(&Mark::new(2, 7)?);
    case.visit(1, slip)
}
