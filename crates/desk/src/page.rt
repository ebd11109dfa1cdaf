// A page for a letter that is written or has come.
ghost use Rattle.std.specs.Prelude.{◌≡◌, ◌<◌, ◌≤◌, [], length, IfOk, vec_capacity, MatchResult};
ghost use Rattle.console.specs.Hexes.{bytes_of};
ghost use Rattle.letters.specs.declared.limits.TheConstants.{LETTER_ROOM};

use console::hex::{Hex, NoRoom};
use letters::writer::LETTER_ROOM;
use std::alloc::{AllocError, Global};

// Room for the longest letter, reserved once.
#[derive(Drop)]
pub struct Page {
    pub(crate) bytes: Vec<u8>,
    ghost room: { LETTER_ROOM ≤ vec_capacity bytes },
}

impl Page {
    pub fn new(heap: Global) -> Result<Page, AllocError>
        ensures { IfOk result (λ p. p.bytes.items ≡ []) }
    {
        let bytes = Vec::with_capacity(heap, LETTER_ROOM)?;
        Ok(Page { bytes })
    }

    pub fn bytes(&self) -> &[u8]
        ensures { result.now ≡ self.now.bytes.items }
    {
        self.bytes.as_slice()
    }

    // Has the bytes of a letter, and nothing else.
    pub fn copy(&mut self, letter: &[u8]) -> Result<(), AllocError>
        ensures { MatchResult result (λ _. self.new.bytes.items ≡ letter.now) (λ _. LETTER_ROOM < length letter.now) }
    {
        self.bytes.clear();
        self.bytes.extend_from_slice(letter)?;
        Ok(())
    }

    // Has the bytes that digits write, and nothing else; unless they are more than any letter has.
    pub fn decode(&mut self, letter: Hex) -> Result<(), NoRoom>
        ensures { MatchResult result
            (λ _. (length (bytes_of letter.entry.digits.now) ≤ LETTER_ROOM) × (self.new.bytes.items ≡ bytes_of letter.entry.digits.now))
            (λ _. LETTER_ROOM < length (bytes_of letter.entry.digits.now)) }
    {
        self.bytes.clear();
        if letter.len() > LETTER_ROOM {
            return Err(NoRoom);
        }
        letter.decode(&mut self.bytes)
    }
}
