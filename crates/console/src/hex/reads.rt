// Which words are hexadecimal digits.
ghost use Rattle.std.specs.Prelude.{◌≡◌, true, []};
ghost use Rattle.console.specs.Hexes.{is_digit, all_digits, is_hex};

use super::Hex;

impl<'a> Hex<'a> {
    // No digits.
    pub fn none() -> Hex<'a>
        ensures { result.digits.now ≡ [] }
    {
        Hex { digits: b"" }
    }

    // The digits of a word.
    pub fn of(word: &'a [u8]) -> Hex<'a>
        requires { is_hex word.now ≡ true }
        ensures { result.digits.now ≡ word.now }
    {
        Hex { digits: word }
    }

    // Two digits to a byte.
    pub fn fits(word: &[u8]) -> bool
        ensures { result ≡ is_hex word.now }
    {
        word.len() % 2 == 0 && all_digits(word)
    }
}

fn all_digits(word: &[u8]) -> bool
    ensures { result ≡ all_digits word.now }
{
    word.iter().all(|b| is_digit(*b))
}

fn is_digit(b: u8) -> bool
    ensures { result ≡ is_digit b }
{
    b.is_ascii_hexdigit()
}
