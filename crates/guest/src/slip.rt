// A guest's slip: for each hut the highest stamp of all that the guest saw or had made.
ghost use Rattle.std.specs.Prelude.{◌≡◌, ◌≢◌, ◌+◌, ◌*◌, ◌<◌, true, false, length, drop, IfOk, MatchResult};
ghost use Rattle.bookings.specs.Refusals.{number_of};
ghost use Rattle.entry_log.specs.Vectors.{no_stamps, covers, joined_with};
ghost use Rattle.guest.specs.Slips.{slip_bytes};
ghost use Rattle.letters.specs.Format.{number_of_four};

use bookings::limits::HUTS;
use bookings::refusal::Refusal;
use entry_log::vector::Vector;
use letters::limits::VECTOR_BYTES;
use std::alloc::{AllocError, Global};
use thiserror::Error;

/// The bytes of a slip, which is a vector.
pub const SLIP_BYTES: usize = VECTOR_BYTES;

#[derive(Clone, Copy, PartialEq, Eq)]
pub struct Slip {
    known: Vector,
}

#[derive(Clone, Copy, Debug, PartialEq, Eq, Error)]
#[error("a slip has {bytes} bytes", bytes = SLIP_BYTES)]
pub struct WrongLength;

// The stamp of a hut, among the bytes of a slip.
fn stamp_at(bytes: &[u8], hut: usize) -> u32
    requires { 4 * hut + 3 < length bytes.now }
    ensures { result ≡ number_of_four (drop (4 * hut) bytes.now) }
{
    let at = 4 * hut;
    u32::from_be_bytes([bytes[at], bytes[at + 1], bytes[at + 2], bytes[at + 3]])
}

impl Slip {
    // The slip of a guest who knows nothing.
    pub fn new() -> Slip
        ensures { result.known.stamps ≡ no_stamps }
    {
        Slip {
            known: Vector::zero(),
        }
    }

    // The slip that bytes are.
    pub fn read(bytes: &[u8]) -> Result<Slip, WrongLength>
        ensures { MatchResult result
            (λ s. slip_bytes s.known.stamps ≡ bytes.now)
            (λ _. length bytes.now ≢ SLIP_BYTES) }
    {
        if bytes.len() != SLIP_BYTES {
            return Err(WrongLength);
        }
        let mut stamps = [0; HUTS];
        for hut in 0..HUTS {
            stamps[hut] = stamp_at(bytes, hut);
        }
        Ok(Slip {
            known: Vector::new(stamps),
        })
    }

    // The bytes that it is kept as.
    pub fn bytes(&self, heap: Global) -> Result<Vec<u8>, AllocError>
        ensures { IfOk result (λ bytes. bytes.items ≡ slip_bytes self.now.known.stamps) }
    {
        let mut bytes = Vec::with_capacity(heap, SLIP_BYTES)?;
        for stamp in self.known.stamps() {
            bytes.extend_from_slice(&stamp.to_be_bytes())?;
        }
        Ok(bytes)
    }

    pub fn known(&self) -> Vector
        ensures { result ≡ self.now.known }
    {
        self.known
    }

    // Whether a hut that has that may serve the guest; refused where the slip knows more (7).
    pub fn may(&self, has: &Vector) -> Result<(), Refusal>
        ensures { MatchResult result
            (λ _. covers has.now.stamps self.now.known.stamps ≡ true)
            (λ e. (number_of e ≡ 7) × (covers has.now.stamps self.now.known.stamps ≡ false)) }
    {
        if !has.covers(&self.known) {
            return Err(Refusal::SlipAhead);
        }
        Ok(())
    }

    // The guest knows all that a hut has, too.
    pub fn add(&mut self, has: &Vector)
        ensures { self.new.known.stamps ≡ joined_with self.old.known.stamps has.now.stamps }
    {
        self.known.join(has);
    }
}
