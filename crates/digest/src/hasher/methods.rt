// A message taken in by parts.
ghost use Rattle.std.specs.Prelude.{◌≡◌, ℕ, ◌+◌, ◌≤◌, List, [], ◌++◌, length, take, drop};
ghost use Rattle.digest.specs.Sha256.{digest_of};
ghost use Rattle.digest.specs.Fed.{Fed};

use super::Hasher;
use crate::DIGEST_BYTES;
use crate::blocks::{Tail, absorb};
use crate::constants::INITIAL;
use crate::rounds::compress;

// The block with a part laid into it.
fn laid(block: [u8; 64], at: usize, part: &[u8]) -> [u8; 64]
    requires { at + length part.now ≤ 64 }
    ensures { result ≡ take at block ++ (part.now ++ drop (at + length part.now) block) }
{
    let mut out = block;
    out[at..at + part.len()].copy_from_slice(part);
    out
}

impl Hasher {
    // A hasher of the empty message.
    pub fn new() -> Hasher
        ensures { Fed result [] }
    {
        Hasher {
            state: INITIAL,
            block: [0; 64],
            filled: 0,
            count: 0,
        }
    }

    // Takes in the next part of the message: first what fills the block that was begun, then whole blocks, then what is left.
    pub fn update(&mut self, part: &[u8])
        ensures { (m : List ℕ) → Fed self.old m → Fed self.new (m ++ part.now) }
    {
        let filled = self.filled;
        // `as`, since no `From` goes from `usize` to `u64`; the check proves that nothing is lost.
        let count = self.count.wrapping_add(part.len() as u64);
        let room = 64 - filled;
        if part.len() < room {
            *self = Hasher {
                state: self.state,
                block: laid(self.block, filled, part),
                filled: filled + part.len(),
                count,
            };
        } else {
            let (front, back) = part.split_at(room);
            let full = laid(self.block, filled, front);
            let Tail { state, rest } = absorb(compress(self.state, &full), back);
            *self = Hasher {
                state,
                block: laid(full, 0, rest),
                filled: rest.len(),
                count,
            };
        }
    }

    // The digest of the message.
    pub fn finish(self) -> [u8; DIGEST_BYTES]
        ensures { (m : List ℕ) → Fed self m → result ≡ digest_of m }
    {
        let Hasher {
            state,
            block,
            filled,
            count,
        } = self;
        let tail = Tail {
            state,
            rest: &block[0..filled],
        };
        tail.finished(count)
    }
}
