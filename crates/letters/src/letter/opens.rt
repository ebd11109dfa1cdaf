// Opening a letter: its first byte, length and digest, and then from its front to its end or to the first entry out of range.
ghost use Rattle.std.specs.Prelude.{◌≡◌, ◌+◌, ◌++◌, if◌then◌else◌, MatchResult, IfOk, nat_eq};
ghost use Rattle.bookings.specs.Refusals.{number_of};
ghost use Rattle.letters.specs.Items.{unread, heard_of, heard_on};
ghost use Rattle.letters.specs.Letters.{damaged, read_body, read_letter};
ghost use Rattle.letters.specs.Rows.{read_row, end_of, through, halted, cut, front};

use super::{Letter, Unread};
use crate::coded::Decoded;
use crate::limits::EMPTY_LETTER_BYTES;
use crate::reader::Reader;
use bookings::entry::Entry;
use bookings::refusal::Refusal;
use digest::DIGEST_BYTES;
use entry_log::waiting::{MAX_LETTER_ENTRIES, Waiting};

impl<'a> Unread<'a> {
    // So many values, in their part of the letter.
    fn new(count: u16, part: &'a [u8]) -> Unread<'a>
        ensures count { result.count ≡ count }
        ensures part { result.reader.rest.now ≡ part.now }
    {
        let reader = Reader::new(part);
        Unread { count, reader }
    }

    // Looks through so many values: those that can be read, in their part of the letter, and how many are kept out, from the first that is out of range on.
    fn look<V: Decoded>(reader: &mut Reader<'a>, count: u16) -> Result<(Unread<'a>, u16), Refusal>
        ensures ends { MatchResult result
            (λ v. end_of (read_row V.reading count reader.old.rest.now) ≡ (if nat_eq v.1 0 then through reader.new.rest.now else halted v.1))
            (λ e. (number_of e ≡ 1) × (end_of (read_row V.reading count reader.old.rest.now) ≡ cut)) }
        ensures values { IfOk result (λ v. unread V.reading v.0 ≡ front V.reading count reader.old.rest.now) }
        ensures part { IfOk result (λ v. reader.old.rest.now ≡ v.0.reader.rest.now ++ reader.new.rest.now) }
        ensures count { IfOk result (λ v. v.0.count + v.1 ≡ count) }
    {
        let before = reader.rest();
        let out = reader.pass::<V>(count)?;
        let part = &before[..before.len() - reader.rest().len()];
        Ok((Unread::new(count - out, part), out))
    }
}

impl<'a> Letter<'a> {
    // Opens a letter; one that is damaged (1) is refused whole.
    pub fn open(bytes: &'a [u8]) -> Result<Letter<'a>, Refusal>
        ensures { MatchResult result
            (λ l. read_letter bytes.now ≡ heard_of l)
            (λ e. (number_of e ≡ 1) × (read_letter bytes.now ≡ damaged)) }
    {
        let (signed, sum) = bytes
            .split_last_chunk::<DIGEST_BYTES>()
            .ok_or(Refusal::Damaged)?;
        let [66, body @ ..] = signed else {
            return Err(Refusal::Damaged);
        };
        if bytes.len() < EMPTY_LETTER_BYTES || digest::sha256(signed) != *sum {
            return Err(Refusal::Damaged);
        }
        Letter::look(Reader::new(body))
    }

    // Looks through what stands between the first byte and the digest.
    fn look(mut reader: Reader<'a>) -> Result<Letter<'a>, Refusal>
        ensures { MatchResult result
            (λ l. read_body reader.entry.rest.now ≡ heard_of l)
            (λ e. (number_of e ≡ 1) × (read_body reader.entry.rest.now ≡ damaged)) }
    {
        let count = reader.two().map_err(|_| Refusal::Damaged)?;
        let place = reader.four().map_err(|_| Refusal::Damaged)?;
        if usize::from(count) > MAX_LETTER_ENTRIES {
            return Err(Refusal::Damaged);
        }
        let (committed, out) = Unread::look::<Entry>(&mut reader, count)?;
        let letter = Letter {
            place: u64::from(place),
            committed,
            tentative: Unread::new(0, &[]),
            out,
        };
        if out > 0 {
            return Ok(letter);
        }
        letter.look_on(reader)
    }

    // Looks through what stands behind the committed entries.
    fn look_on(self, mut reader: Reader<'a>) -> Result<Letter<'a>, Refusal>
        ensures { MatchResult result
            (λ l. heard_on self.entry reader.entry.rest.now ≡ heard_of l)
            (λ e. (number_of e ≡ 1) × (heard_on self.entry reader.entry.rest.now ≡ damaged)) }
    {
        let count = reader.two().map_err(|_| Refusal::Damaged)?;
        if usize::from(self.committed.count) + usize::from(count) > MAX_LETTER_ENTRIES {
            return Err(Refusal::Damaged);
        }
        let (tentative, out) = Unread::look::<Waiting>(&mut reader, count)?;
        if out == 0 && reader.rest().len() > 0 {
            return Err(Refusal::Damaged);
        }
        Ok(Letter {
            place: self.place,
            committed: self.committed,
            tentative,
            out,
        })
    }
}
