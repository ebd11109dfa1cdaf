// SHA-256, of a message in one piece and of one that comes in parts.
#![tactic(auto)]

ghost use Rattle.std.specs.Prelude.{◌≡◌};
ghost use Rattle.digest.specs.Sha256.{digest_of};

use blocks::absorb;
use constants::INITIAL;

mod blocks;
mod constants;
mod hasher;
pub mod laws;
mod rounds;
mod schedule;
mod words;

pub use hasher::Hasher;

/// The bytes of a digest.
pub const DIGEST_BYTES: usize = 32;

// The digest of a message.
pub fn sha256(message: &[u8]) -> [u8; DIGEST_BYTES]
    ensures { result ≡ digest_of message.now }
{
    // No `From` goes from `usize` to `u64`; the check proves that nothing is lost.
    absorb(INITIAL, message).finished(message.len() as u64)
}
