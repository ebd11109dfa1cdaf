// Lines of input, which is read in large pieces.
ghost use Rattle.std.specs.Prelude.{◌≡◌, ◌==◌, [], length, nat_lt, IfOk, OnOk, IfSome};
ghost use Rattle.std.specs.Io.BufRead.{take_through, strip_last, DropsThrough};
ghost use Rattle.std.specs.Io.Buffered.{reader_buffer, reader_inner, reader_remaining};
ghost use Rattle.std.specs.List.{list_any};

use std::alloc::Global;
use std::io;
use std::io::{BufRead, BufReader, Read};

// How many bytes are read at once.
const PIECE: usize = 65536;

#[derive(Drop)]
pub struct Lines<R> {
    input: BufReader<R>,
    // The line that is meant, with its line break.
    line: Vec<u8>,
}

impl<R: Read + Drop> Lines<R> {
    pub fn new(heap: Global, input: R) -> io::Result<Lines<R>>
        ensures { IfOk result (λ l. (reader_inner l.input ≡ input) × (reader_buffer l.input ≡ [])) }
    {
        Ok(Lines {
            input: BufReader::with_capacity(heap, PIECE, input)?,
            line: Vec::new(heap),
        })
    }

    // Goes on to the next line, if there is one.
    pub fn advance(&mut self) -> io::Result<bool>
        ensures line { IfSome (reader_remaining R.remaining self.old.input) (λ xs. OnOk result (self.new.line.items ≡ take_through 10 xs)) }
        ensures rest { OnOk result (DropsThrough (reader_remaining R.remaining self.old.input) (reader_remaining R.remaining self.new.input) 10) }
        ensures more { IfOk result (λ more. more ≡ nat_lt 0 (length self.new.line.items)) }
    {
        self.line.clear();
        Ok(self.input.read_until(b'\n', &mut self.line)? > 0)
    }

    // The line without its line break.
    pub fn line(&self) -> &[u8]
        ensures { result.now ≡ strip_last 10 self.now.line.items }
    {
        match self.line.as_slice() {
            [front @ .., b'\n'] => front,
            line => line,
        }
    }

    // Whether a whole line more is at hand.
    pub fn has_more(&self) -> bool
        ensures { result ≡ list_any (λ b. b == 10) (reader_buffer self.now.input) }
    {
        self.input.buffer().contains(&b'\n')
    }
}
