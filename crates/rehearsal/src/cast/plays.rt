// What the hut that is meant does.
ghost use Rattle.std.specs.Prelude.{◌≡◌, ℕ, ◌<◌, ◌⊎◌, true, false, [], List, is_ok, vec_len, MatchOption, MatchResult, OnOk};
ghost use Rattle.bookings.specs.Refusals.{number_of};
ghost use Rattle.journal.specs.History.{Kept};
ghost use Rattle.journal.specs.declared.opened.NotOpened.TheVariants.{Memory as NoMemory, Refused as Kept_out, Failed as Broken};
ghost use Rattle.letters.specs.Letters.{damaged, read_letter};
ghost use Rattle.network.specs.Acts.{Told, Denied, writes, comes_of};
ghost use Rattle.network.specs.Casts.{Absent, CastOk, Opens};
ghost use Rattle.network.specs.Hosting.{ForGuest};
ghost use Rattle.network.specs.Net.{Event};
ghost use Rattle.network.specs.Reached.{Promises};
ghost use Rattle.network.specs.Stages.{Follows, SameHuts, Unsynced, Unwritten, bytes_sent, hut_at, huts_of};
ghost use Rattle.network.specs.Stands.{Forged, Heard, Sent, Stands, Turned, Went};
ghost use Rattle.network.specs.Taking.{Reports};
ghost use Rattle.network.specs.declared.act.Act.TheVariants as acts;
ghost use Rattle.network.specs.declared.unplayed.Unplayed.TheVariants.{Memory, Refused, Failed};
ghost use Rattle.rehearsal.specs.Carrying.{BesideAt, heard_at, placing};

use super::Cast;
use bookings::refusal::Refusal;
use journal::opened::NotOpened;
use network::act::{Act, Done};
use network::rehearsal::Rehearsal;
use network::unplayed::Unplayed;
use std::alloc::Global;

impl Cast {
    // One to four different huts, none of which has an entry; the first is meant.
    pub fn new(heap: Global, huts: &[u64]) -> Result<Cast, NotOpened>
        ensures { MatchResult result
            (λ c. CastOk huts.now × Opens huts.now (huts_of c.rehearsal.stage) × Stands c.rehearsal.stage [] × (c.current ≡ 0) × (c.rehearsal.forged ≡ false) × (c.carried.items ≡ []))
            (λ e. elim e [ NoMemory ↦ Unit {0} | Kept_out w ↦ (number_of w ≡ 2) × (CastOk huts.now → ⊥) | Broken f ↦ ⊥ ]) }
    {
        let rehearsal = Rehearsal::new(heap, huts)?;
        Ok(Cast {
            heap,
            rehearsal,
            current: 0,
            carried: Vec::new(heap),
        })
    }

    // From now on a hut is meant; refused where it is none of them (2).
    pub fn at(&mut self, hut: u64) -> Result<(), Refusal>
        ensures rehearsal { self.new.rehearsal ≡ self.old.rehearsal }
        ensures carried { self.new.carried ≡ self.old.carried }
        ensures current { MatchResult result
            (λ _. hut_at (huts_of self.old.rehearsal.stage) self.new.current ≡ hut)
            (λ e. (number_of e ≡ 2) × Absent hut (huts_of self.old.rehearsal.stage) × (self.new.current ≡ self.old.current)) }
    {
        self.current = self.place(hut)?;
        Ok(())
    }

    // The place of a hut; refused where it is none of them (2).
    pub(crate) fn place(&self, hut: u64) -> Result<usize, Refusal>
        ensures { MatchResult result
            (λ p. (p < vec_len self.now.rehearsal.stage.keepers) × (hut_at (huts_of self.now.rehearsal.stage) p ≡ hut))
            (λ e. (number_of e ≡ 2) × Absent hut (huts_of self.now.rehearsal.stage)) }
    {
        self.rehearsal.find(hut).ok_or(Refusal::OutOfRange)
    }

    // The hut that is meant does what it is told.
    pub fn play(&mut self, heap: Global, act: &Act) -> Result<Done, Unplayed>
        ensures answer { MatchResult result
            (Told (huts_of self.old.rehearsal.stage) self.old.current (vec_len self.old.rehearsal.stage.letters) act.now)
            (λ e. elim e [ Memory ↦ writes act.now ≡ true | Refused w ↦ Denied (huts_of self.old.rehearsal.stage) self.old.current (vec_len self.old.rehearsal.stage.letters) act.now w | Failed f ↦ ⊥ ]) }
        ensures steps { (es : List Event) → Stands self.old.rehearsal.stage es → Went self.old.rehearsal.stage self.new.rehearsal.stage self.old.current act.now result es }
        ensures turned { Turned self.old.rehearsal.stage self.new.rehearsal.stage self.old.current act.now result }
        ensures beside { (kept : ℕ → Kept) → BesideAt (huts_of self.old.rehearsal.stage) self.old.current kept → BesideAt (huts_of self.new.rehearsal.stage) self.new.current kept }
        ensures placing { placing (huts_of self.new.rehearsal.stage) self.new.current ≡ placing (huts_of self.old.rehearsal.stage) self.old.current }
        ensures guests { (es : List Event) (guest : ℕ) → Stands self.old.rehearsal.stage es → ForGuest self.old.rehearsal.stage self.new.rehearsal.stage self.old.current act.now result es guest }
        ensures report { (kept : ℕ → Kept) → Follows (huts_of self.old.rehearsal.stage) kept → OnOk result
            (MatchOption (comes_of (bytes_sent self.old.rehearsal.stage) act.now) (Unit {0})
            (λ bs. Reports self.new.rehearsal.stage.report (read_letter bs) (kept (hut_at (huts_of self.old.rehearsal.stage) self.old.current)))) }
        ensures letters { Sent self.old.rehearsal.stage self.new.rehearsal.stage self.old.current act.now result }
        ensures places { SameHuts (huts_of self.old.rehearsal.stage) (huts_of self.new.rehearsal.stage) }
        ensures promised { self.new.rehearsal.forged ≡ false → Promises self.new.rehearsal.stage }
        ensures forged { self.new.rehearsal.forged ≡ self.old.rehearsal.forged }
        ensures clean { act.now ≡ acts.Sync → OnOk result (Unsynced (huts_of self.new.rehearsal.stage) self.new.current → ⊥) }
        ensures current { self.new.current ≡ self.old.current }
        ensures carried { self.new.carried ≡ self.old.carried }
    {
        self.rehearsal.play(heap, self.current, act)
    }

    // Bytes that were typed come to the hut that is meant. A letter that none of the huts wrote is beyond what is promised.
    pub fn hear(&mut self, bytes: &[u8]) -> Result<(), Unplayed>
        ensures answer { is_ok result ≡ true }
        ensures taken { (kept : ℕ → Kept) → Follows (huts_of self.old.rehearsal.stage) kept
            → Follows (huts_of self.new.rehearsal.stage) (heard_at (huts_of self.old.rehearsal.stage) self.old.current bytes.now kept) }
        ensures beside { (kept : ℕ → Kept) → BesideAt (huts_of self.old.rehearsal.stage) self.old.current kept → BesideAt (huts_of self.new.rehearsal.stage) self.new.current kept }
        ensures placing { placing (huts_of self.new.rehearsal.stage) self.new.current ≡ placing (huts_of self.old.rehearsal.stage) self.old.current }
        ensures report { (kept : ℕ → Kept) → Follows (huts_of self.old.rehearsal.stage) kept
            → Reports self.new.rehearsal.stage.report (read_letter bytes.now) (kept (hut_at (huts_of self.old.rehearsal.stage) self.old.current)) }
        ensures letters { self.new.rehearsal.stage.letters ≡ self.old.rehearsal.stage.letters }
        ensures steps { (es : List Event) → Stands self.old.rehearsal.stage es → Heard self.old.rehearsal.stage self.new.rehearsal.stage self.old.current bytes.now es }
        ensures honest { self.old.rehearsal.forged ≡ false → read_letter bytes.now ≡ damaged → self.new.rehearsal.forged ≡ false }
        ensures written { self.old.rehearsal.forged ≡ false → (Unwritten (bytes_sent self.old.rehearsal.stage) bytes.now → ⊥) → self.new.rehearsal.forged ≡ false }
        ensures forged { (self.old.rehearsal.forged ≡ true) ⊎ Forged (bytes_sent self.old.rehearsal.stage) bytes.now → self.new.rehearsal.forged ≡ true }
        ensures places { SameHuts (huts_of self.old.rehearsal.stage) (huts_of self.new.rehearsal.stage) }
        ensures promised { self.new.rehearsal.forged ≡ false → Promises self.new.rehearsal.stage }
        ensures current { self.new.current ≡ self.old.current }
        ensures carried { self.new.carried ≡ self.old.carried }
    {
        self.rehearsal.hear(self.current, bytes)?;
        Ok(())
    }
}
