// The numbers of a line.
ghost use Rattle.std.specs.Prelude.{◌≡◌, ◌≤◌, length, take, Some, None, MatchOption};
ghost use Rattle.console.specs.Numbers.{numbers_of};
ghost use Rattle.console.specs.Words.{words};
ghost use Rattle.console.specs.declared.numbers.TheConstants.{MAX_NUMBERS};

use crate::number::read_number;
use crate::words::first_word;
use bookings::limits::MAX_CHOICES;

/// The most numbers of a line: a change has two of a mark, and four for each choice.
pub const MAX_NUMBERS: usize = 2 + 4 * MAX_CHOICES;

// The first `count` of the array. They are no model of it (`impl Model`): that would forget the rest, and what is `Copy` forgets nothing.
#[derive(Clone, Copy)]
pub struct Numbers {
    count: usize,
    all: [u64; MAX_NUMBERS],
    ghost few: { count ≤ MAX_NUMBERS },
    ghost full: { length all ≡ MAX_NUMBERS },
}

impl Numbers {
    // The numbers that the words of a text write, unless a word is no number or there are more than a line can have.
    pub(crate) fn read(text: &[u8]) -> Option<Numbers>
        ensures { MatchOption result
            (numbers_of MAX_NUMBERS (words text.now) ≡ None)
            (λ ns. numbers_of MAX_NUMBERS (words text.now) ≡ Some (take ns.count ns.all)) }
    {
        let mut all = [0u64; MAX_NUMBERS];
        let mut count = 0;
        let mut left = text;
        // By `first_word` and no iterator of words: the other readers hand on whole what is left behind a word, so only this loop would use one.
        while let Some((word, rest)) = first_word(left) {
            if count == MAX_NUMBERS {
                return None;
            }
            all[count] = read_number(word)?;
            count += 1;
            left = rest;
        }
        Some(Numbers { count, all })
    }

    pub fn as_slice(&self) -> &[u64]
        ensures { result.now ≡ take self.now.count self.now.all }
    {
        &self.all[..self.count]
    }
}
