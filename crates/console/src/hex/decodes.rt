// The bytes that hexadecimal digits write.
ghost use Rattle.std.specs.Prelude.{◌≡◌, ◌+◌, ◌<◌, ◌≤◌, true, ◌++◌, length, vec_len, vec_capacity, MatchResult};
ghost use Rattle.console.specs.Hexes.{is_digit, value_of, bytes_of};

use super::Hex;
use thiserror::Error;

// The room that a buffer has does not suffice.
#[derive(Clone, Copy, Debug, PartialEq, Eq, Error)]
#[error("the buffer has no room")]
pub struct NoRoom;

impl Hex<'_> {
    // How many bytes they are.
    pub fn len(self) -> usize
        ensures { result ≡ length (bytes_of self.entry.digits.now) }
    {
        self.digits.len() / 2
    }

    // Puts the bytes behind those of a buffer, into its reserved room. Where that does not suffice, nothing changes.
    pub fn decode(self, out: &mut Vec<u8>) -> Result<(), NoRoom>
        ensures items { MatchResult result
            (λ _. out.new.items ≡ out.old.items ++ bytes_of self.entry.digits.now)
            (λ _. out.new ≡ out.old) }
        ensures room { MatchResult result
            (λ _. vec_len out.old + length (bytes_of self.entry.digits.now) ≤ vec_capacity out.old)
            (λ _. vec_capacity out.old < vec_len out.old + length (bytes_of self.entry.digits.now)) }
        ensures capacity { vec_capacity out.new ≡ vec_capacity out.old }
    {
        let (pairs, _) = self.digits.as_chunks::<2>();
        if out.capacity() - out.len() < pairs.len() {
            return Err(NoRoom);
        }
        for [high, low] in pairs {
            out.push_reserved(value(*high) * 16 + value(*low));
        }
        Ok(())
    }
}

fn value(digit: u8) -> u8
    requires { is_digit digit ≡ true }
    ensures value { result ≡ value_of digit }
    ensures small { result < 16 }
{
    // The value of a digit is less than 16, as is proved: `try_from` would add an error that cannot come.
    char::from(digit).to_digit(16).unwrap() as u8
}
