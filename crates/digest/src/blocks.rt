// A message block by block: its whole blocks, and then its end with the padding (FIPS 180-4, 5.1.1 and 6.2.2).
ghost use Rattle.std.specs.Prelude.{◌≡◌, ℕ, ◌-◌, ◌%◌, ◌^◌, ◌<◌, List, ◌∷◌, ◌++◌, length, take, replicate};
ghost use Rattle.digest.specs.Sha256.{bytes8, padding, absorbed, initial, digest_of};
ghost use Rattle.digest.specs.Progress.{Cut};

use crate::DIGEST_BYTES;
use crate::rounds::compress;
use crate::words::to_bytes;

// What stands after the whole blocks of a message: the state, and the bytes that are left, which are fewer than a block.
#[derive(Clone, Copy)]
pub(crate) struct Tail<'a> {
    pub(crate) state: [u32; 8],
    pub(crate) rest: &'a [u8],
    ghost short: { length rest.now < 64 },
}

// Takes in the whole blocks of some bytes.
pub(crate) fn absorb(state: [u32; 8], bytes: &[u8]) -> Tail<'_>
    ensures { Cut state bytes.now result.state result.rest.now }
{
    let (blocks, rest) = bytes.as_chunks();
    let state = blocks.iter().fold(state, compress);
    Tail { state, rest }
}

// The block with a message's length in its last eight bytes.
fn with_length(block: [u8; 64], bits: u64) -> [u8; 64]
    ensures { result ≡ take 56 block ++ bytes8 bits }
{
    let mut last = block;
    last[56..64].copy_from_slice(&bits.to_be_bytes());
    last
}

impl Tail<'_> {
    // A block of the bytes that are left, the byte that ends a message, and zeros.
    fn end_marked(self) -> [u8; 64]
        ensures { result ≡ self.entry.rest.now ++ (0x80 ∷ replicate (63 - length self.entry.rest.now) 0) }
    {
        let mut block = [0u8; 64];
        let n = self.rest.len();
        block[0..n].copy_from_slice(self.rest);
        block[n] = 0x80;
        block
    }

    // The state after the bytes that are left and the padding, which come to one block or two.
    fn last_blocks(self, bits: u64) -> [u32; 8]
        ensures { result ≡ absorbed self.entry.state (self.entry.rest.now ++ padding (length self.entry.rest.now) bits) }
    {
        let block = self.end_marked();
        let fits = self.rest.len() < 56;
        if fits {
            compress(self.state, &with_length(block, bits))
        } else {
            compress(compress(self.state, &block), &with_length([0; 64], bits))
        }
    }

    // The digest of the message, which has `count` bytes.
    pub(crate) fn finished(self, count: u64) -> [u8; DIGEST_BYTES]
        ensures { (m : List ℕ) → Cut initial m self.entry.state self.entry.rest.now → count ≡ length m % 2 ^ 64 → result ≡ digest_of m }
    {
        to_bytes(self.last_blocks(count.wrapping_mul(8)))
    }
}
