// A word as a number.
ghost use Rattle.std.specs.Prelude.{◌≡◌, ◌-◌, ◌<◌, ◌≤◌, ◌⊎◌, MatchOption};
ghost use Rattle.console.specs.Digits.{number_of, hut_of};

use bookings::limits::HUTS;

// The number that a word writes by 1 to 10 decimal digits.
pub fn read_number(word: &[u8]) -> Option<u64>
    ensures { result ≡ number_of word.now }
{
    if word.is_empty() || word.len() > 10 {
        return None;
    }
    let mut n: u64 = 0;
    for b in word {
        n = n * 10 + digit(*b)?;
    }
    Some(n)
}

fn digit(b: u8) -> Option<u64>
    ensures { MatchOption result ((b < 48) ⊎ (57 < b)) (λ d. (48 ≤ b) × (b ≤ 57) × (d ≡ b - 48)) }
{
    let value = char::from(b).to_digit(10)?;
    Some(u64::from(value))
}

// The number of a hut that a word writes.
pub fn read_hut(word: &[u8]) -> Option<u8>
    ensures { result ≡ hut_of word.now }
{
    let number = read_number(word)?;
    // Less than `HUTS`: `try_from` would add an error that cannot come.
    if number < HUTS as u64 {
        Some(number as u8)
    } else {
        None
    }
}
