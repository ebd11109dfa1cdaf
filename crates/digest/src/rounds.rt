// The sixty-four rounds on a block: FIPS 180-4, 6.2.2, steps 2 to 4.
ghost use Rattle.std.specs.Prelude.{◌≡◌, ℕ, ◌+◌, ◌≤◌, List, length};
ghost use Rattle.digest.specs.Sha256.{round_of, rounds, sums, compress_of};
ghost use Rattle.digest.specs.Progress.{Along};

use crate::constants::ROUND;
use crate::schedule::{block_words, store_next};
use crate::words::{big_sigma0, big_sigma1, ch, maj};
use std::array;

// One round on the eight words of the state.
fn round(state: [u32; 8], k: u32, w: u32) -> [u32; 8]
    ensures { result ≡ round_of state k w }
{
    let [a, b, c, d, e, f, g, h] = state;
    let first = h
        .wrapping_add(big_sigma1(e))
        .wrapping_add(ch(e, f, g))
        .wrapping_add(k)
        .wrapping_add(w);
    let second = big_sigma0(a).wrapping_add(maj(a, b, c));
    [
        first.wrapping_add(second),
        a,
        b,
        c,
        d.wrapping_add(first),
        e,
        f,
        g,
    ]
}

// Four at a time: after four rounds each of the eight words is a new one, and none was only moved.
// Four rounds from the round `t` on, each of which stores the word that is wanted sixteen rounds later.
fn four_early(state: [u32; 8], w: &mut [u32; 64], t: usize) -> [u32; 8]
    requires { t + 20 ≤ 64 }
    ensures { (block s : List ℕ) → Along block s t state w.old → Along block s (t + 4) result w.new }
{
    let one = round(state, ROUND[t], w[t]);
    store_next(w, t + 16);
    let two = round(one, ROUND[t + 1], w[t + 1]);
    store_next(w, t + 17);
    let three = round(two, ROUND[t + 2], w[t + 2]);
    store_next(w, t + 18);
    let four = round(three, ROUND[t + 3], w[t + 3]);
    store_next(w, t + 19);
    four
}

// The first forty-eight rounds, which complete the schedule. It runs beside the rounds, since that is faster than one after the other.
fn early_rounds(state: [u32; 8], w: &mut [u32; 64]) -> [u32; 8]
    ensures { (block : List ℕ) → Along block state 0 state w.old → Along block state 48 result w.new }
{
    let mut s = state;
    // Not by `fold`: of the schedule that its closure writes, the proof knows nothing. By `next`, since the borrow checker does not take a call's result straight into a local that is an array.
    for t in (0..48).step_by(4) {
        let next = four_early(s, w, t);
        s = next;
    }
    s
}

// Four rounds from the round `t` on, whose words are all stored. Beside `four_early`, since that writes the schedule, and this reads it whole.
fn four_late(state: [u32; 8], w: &[u32; 64], t: usize) -> [u32; 8]
    requires { t + 4 ≤ 64 }
    ensures { (s : List ℕ) → state ≡ rounds t s w.now → result ≡ rounds (t + 4) s w.now }
{
    let one = round(state, ROUND[t], w[t]);
    let two = round(one, ROUND[t + 1], w[t + 1]);
    let three = round(two, ROUND[t + 2], w[t + 2]);
    round(three, ROUND[t + 3], w[t + 3])
}

// The last sixteen rounds.
fn late_rounds(state: [u32; 8], w: &[u32; 64]) -> [u32; 8]
    ensures { (s : List ℕ) → state ≡ rounds 48 s w.now → result ≡ rounds 64 s w.now }
{
    let mut s = state;
    // A loop as for the first rounds, so that the two read alike; the number of the round says which constant and which word it takes.
    for t in (48..64).step_by(4) {
        let next = four_late(s, w, t);
        s = next;
    }
    s
}

// The sums of two states, word by word.
fn added(x: [u32; 8], y: [u32; 8]) -> [u32; 8]
    ensures { result ≡ sums x y }
{
    array::from_fn(|i| x[i].wrapping_add(y[i]))
}

// The state after one more block.
pub(crate) fn compress(state: [u32; 8], block: &[u8; 64]) -> [u32; 8]
    ensures { result ≡ compress_of state block.now }
{
    let mut w = block_words(block);
    let early = early_rounds(state, &mut w);
    added(late_rounds(early, &w), state)
}
