// A rehearsal is made.
ghost use Rattle.std.specs.Prelude.{◌≡◌, ℕ, ◌<◌, [], false, length, vec_capacity, MatchOption, MatchResult};
ghost use Rattle.bookings.specs.Refusals.{number_of};
ghost use Rattle.journal.specs.History.{empty};
ghost use Rattle.journal.specs.Keeping.{InStep, InMemory, most_bytes};
ghost use Rattle.journal.specs.declared.opened.NotOpened.TheVariants.{Memory as NoMemory, Refused, Failed};
ghost use Rattle.network.specs.Casts.{CastOk, Absent, Opens};
ghost use Rattle.network.specs.Stages.{huts_of, hut_at};
ghost use Rattle.network.specs.Stands.{Stands};

use super::Rehearsal;
use crate::report::Report;
use crate::stage::Stage;
use bookings::limits::{HUTS, MAX_REHEARSAL_HUTS};
use bookings::refusal::Refusal;
use journal::appender::Appender;
use journal::keeper::Keeper;
use journal::memory::{JOURNAL_ROOM, Memory};
use journal::opened::NotOpened;
use letters::writer::LETTER_ROOM;
use replica::parcel::Parcel;
use std::alloc::Global;

// The place of a hut's replica.
pub(crate) fn place_of(keepers: &[Keeper<Appender<Memory>>], hut: u64) -> Option<usize>
    ensures { MatchOption result (Absent hut keepers.now) (λ p. (p < length keepers.now) × (hut_at keepers.now p ≡ hut)) }
{
    keepers
        .iter()
        .position(|keeper| u64::from(keeper.hut()) == hut)
}

// A replica of a hut that is not among some yet, over an empty journal.
fn join(
    heap: Global,
    keepers: &[Keeper<Appender<Memory>>],
    hut: u64,
) -> Result<Keeper<Appender<Memory>>, NotOpened>
    ensures { MatchResult result
        (λ q. (hut < HUTS) × Absent hut keepers.now × InStep InMemory q (empty hut) × (most_bytes < vec_capacity q.journal.medium.held))
        (λ e. elim e [ NoMemory ↦ Unit {0} | Refused w ↦ (number_of w ≡ 2) × ((hut < HUTS) × Absent hut keepers.now → ⊥) | Failed f ↦ ⊥ ]) }
{
    if hut >= HUTS as u64 {
        return Err(NotOpened::Refused(Refusal::OutOfRange));
    }
    if place_of(keepers, hut).is_some() {
        return Err(NotOpened::Refused(Refusal::OutOfRange));
    }
    let memory = Memory::new(heap, JOURNAL_ROOM)?;
    // Less than `HUTS`: `try_from` would add an error that cannot come.
    Ok(Keeper::open(heap, hut as u8, memory, &[])?.keeper)
}

impl Rehearsal {
    // One to four different huts, none of which has an entry; refused where they are not that (2).
    pub fn new(heap: Global, huts: &[u64]) -> Result<Rehearsal, NotOpened>
        ensures { MatchResult result
            (λ r. CastOk huts.now × Opens huts.now (huts_of r.stage) × Stands r.stage [] × (r.forged ≡ false))
            (λ e. elim e [ NoMemory ↦ Unit {0} | Refused w ↦ (number_of w ≡ 2) × (CastOk huts.now → ⊥) | Failed f ↦ ⊥ ]) }
    {
        if huts.is_empty() || huts.len() > MAX_REHEARSAL_HUTS {
            return Err(NotOpened::Refused(Refusal::OutOfRange));
        }
        let mut keepers = Vec::with_capacity(heap, MAX_REHEARSAL_HUTS)?;
        for hut in huts {
            let keeper = join(heap, keepers.as_slice(), *hut)?;
            keepers.push_reserved(keeper);
        }
        let page = Vec::with_capacity(heap, LETTER_ROOM)?;
        let parcel = Parcel::new(heap)?;
        let report = Report::new(heap)?;
        Ok(Rehearsal {
            stage: Stage {
                keepers,
                letters: Vec::new(heap),
                page,
                parcel,
                report,
            },
            forged: false,
        })
    }
}
