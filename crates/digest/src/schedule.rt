// The message schedule of a block: FIPS 180-4, 6.2.2, step 1.
ghost use Rattle.std.specs.Prelude.{◌≡◌, ◌<◌, ◌≤◌, ◌++◌, length, replicate, slice_set};
ghost use Rattle.digest.specs.Sha256.{words, next_word};

use crate::words::{small_sigma0, small_sigma1};

// The sixteen words of a block, with room for forty-eight more.
pub(crate) fn block_words(block: &[u8; 64]) -> [u32; 64]
    ensures { result ≡ words 16 block.now ++ replicate 48 0 }
{
    // `array::from_fn` would have to ask at each of the sixty-four places whether its word is one of the block's.
    let mut w = [0u32; 64];
    for (t, four) in block.as_chunks::<4>().0.iter().enumerate() {
        w[t] = u32::from_be_bytes(*four);
    }
    w
}

// Stores the word `t`, which follows from those before it.
pub(crate) fn store_next(w: &mut [u32; 64], t: usize)
    requires { (16 ≤ t) × (t < 64) }
    ensures { w.new ≡ slice_set w.old t (next_word w.old t) }
{
    w[t] = small_sigma1(w[t - 2])
        .wrapping_add(w[t - 7])
        .wrapping_add(small_sigma0(w[t - 15]))
        .wrapping_add(w[t - 16]);
}
