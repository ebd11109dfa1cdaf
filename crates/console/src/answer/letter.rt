// A letter in hexadecimal digits.
ghost use Rattle.std.specs.Prelude.{Some};
ghost use Rattle.console.specs.LetterAnswers.{letter_text};

use std::fmt;

// The line that brings a letter.
#[derive(Clone, Copy)]
pub struct Letter<'a> {
    pub bytes: &'a [u8],
}

impl fmt::Display for Letter<'_> {
    ghost output = { λ l. Some (letter_text l.bytes.now) };

    fn fmt<W: fmt::Write>(&self, f: &mut fmt::Formatter<W>) -> fmt::Result {
        f.write_str("letter ")?;
        // `digest_vectors` and `letter_table` print bytes by such a line too: neither stands on this crate.
        for &byte in self.bytes {
            write!(f, "{byte:02x}")?;
        }
        Ok(())
    }
}
