// Values with a form in bytes: they are written and read one behind the other.
ghost use Rattle.std.specs.Prelude.{◌≡◌, ℕ, ◌≤◌, List, length, MatchResult, IfOk};
ghost use Rattle.letters.specs.Answers.{Answer, got, wrong, OwnPart};
ghost use Rattle.letters.specs.Buffers.{Room, Written};
ghost use Rattle.letters.specs.declared.limits.TheConstants.{WAITING_ROOM};

use crate::reader::Reader;
use crate::wrong::Wrong;

mod values;

// What a value means, the bytes of that, and which meanings the format can hold.
pub(crate) trait Coded: Copy {
    ghost Plain: { Type 0 };

    ghost plain: { Self → Plain };

    ghost encoding: { Plain → List ℕ };

    ghost Fits: { Plain → Type 0 };

    // Puts the value behind the bytes of a buffer that has room for it.
    fn write(&self, out: &mut Vec<u8>)
        requires { Room out.old (encoding (plain self.now)) }
        ensures written { Written out.old out.new (encoding (plain self.now)) }
        ensures fits { Fits (plain self.now) };

    // How many bytes it takes.
    fn size(&self) -> usize
        ensures value { result ≡ length (encoding (plain self.now)) }
        ensures small { result ≤ WAITING_ROOM };
}

// Values that are read one behind the other: what a value means, and what bytes are read as.
pub(crate) trait Decoded: Copy {
    ghost Plain: { Type 0 };

    ghost plain: { Self → Plain };

    ghost reading: { List ℕ → Answer Plain };

    // The next value.
    fn read(reader: &mut Reader<'_>) -> Result<Self, Wrong>
        ensures value { MatchResult result
            (λ v. reading reader.old.rest.now ≡ got (plain v) reader.new.rest.now)
            (λ e. reading reader.old.rest.now ≡ wrong e) }
        ensures part { IfOk result (λ v. OwnPart reading (plain v) reader.old.rest.now reader.new.rest.now) };
}
