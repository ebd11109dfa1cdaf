// A replica is opened over its journal.
ghost use Rattle.std.specs.Prelude.{◌≡◌, ℕ, ◌-◌, ◌<◌, ◌≤◌, Bool, true, false, length, MatchResult};
ghost use Rattle.bookings.specs.Refusals.{number_of};
ghost use Rattle.bookings.specs.declared.limits.TheConstants.{HUTS};
ghost use Rattle.journal.specs.Finding.{FoundOf};
ghost use Rattle.journal.specs.History.{Kept, history_of, opened, synced, crashed};
ghost use Rattle.journal.specs.Keeping.{InStep};
ghost use Rattle.journal.specs.Phases.{is_synced, is_shut};
ghost use Rattle.journal.specs.Records.{bytes_of, history_in, Stands};
ghost use Rattle.journal.specs.declared.opened.NotOpened.TheVariants.{Memory, Refused, Failed};

use super::Keeper;
use crate::appender::Appender;
use crate::limits::RECORD_ROOM;
use crate::medium::Medium;
use crate::open::replay_all;
use crate::opened::{NotOpened, Opened};
use replica::replica::Replica;
use std::alloc::Global;

impl<M: Medium + Drop> Keeper<Appender<M>> {
    // Opens the journal of a hut on a medium, on which these bytes were found. It is cut back to where the last record ends that is whole, in range
    // and can stand, and all of it is synced then.
    pub fn open(heap: Global, hut: u8, medium: M, found: &[u8]) -> Result<Opened<M>, NotOpened>
        ensures kept { MatchResult result
            (λ o. (hut < HUTS) × (o.cut ≡ length found.now - length (bytes_of (history_in hut found.now)))
            × ((n : ℕ) → n ≤ length (bytes_of (history_in hut found.now)) → M.Medium.holds medium found.now n
            → InStep (λ j bs m. (is_shut j.phase ≡ false) × M.Medium.holds j.medium bs m × (is_synced j.phase ≡ true → m ≡ length bs)) o.keeper (opened hut (history_in hut found.now))))
            (λ e. elim e [ Memory ↦ Unit {0} | Refused w ↦ (number_of w ≡ 2) × (HUTS ≤ hut) | Failed f ↦ Unit {0} ]) }
        ensures stopped { (k : Kept) → k.hut ≡ hut → Stands hut (history_of k) → FoundOf k found.now → M.Medium.holds medium found.now (length (bytes_of k.durable)) → MatchResult result
            (λ o. (lost : ℕ) × InStep (λ j bs m. (is_shut j.phase ≡ false) × M.Medium.holds j.medium bs m × (is_synced j.phase ≡ true → m ≡ length bs)) o.keeper (synced (crashed lost k)))
            (λ _. Unit {0}) }
        ensures room { MatchResult result (λ o. M.Medium.room medium ≤ M.Medium.room o.keeper.journal.medium) (λ e. elim e [ Memory ↦ Unit {0} | Refused w ↦ Unit {0} | Failed f ↦ (0 < M.Medium.room medium → ⊥) ]) }
    {
        let mut replica = Replica::new(heap, hut)?;
        let line = Vec::with_capacity(heap, RECORD_ROOM)?;
        let whole = replay_all(&mut replica, found);
        let mut journal = Appender::new(medium);
        journal.restart(whole)?;
        Ok(Opened {
            keeper: Keeper {
                replica,
                journal,
                line,
            },
            cut: found.len() - whole,
        })
    }
}
