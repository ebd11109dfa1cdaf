// Records as bytes.
ghost use Rattle.std.specs.Prelude.{◌≡◌, ◌++◌, IfOk, MatchResult};
ghost use Rattle.letters.specs.Answers.{got, wrong};
ghost use Rattle.letters.specs.Buffers.{Room, Written};
ghost use Rattle.letters.specs.Laws.{EntryOk};
ghost use Rattle.journal.specs.Records.{encode_record, read_record, entry_of};
ghost use Rattle.journal.specs.Views.{plain_record};

use super::Record;
use letters::reader::Reader;
use letters::writer::{put, write_entry};
use letters::wrong::Wrong;

impl Record {
    // Puts the record behind the bytes of a buffer that has room for it.
    pub(crate) fn write(&self, out: &mut Vec<u8>)
        requires { Room out.old (encode_record (plain_record self.now)) }
        ensures written { Written out.old out.new (encode_record (plain_record self.now)) }
        ensures fits { EntryOk (entry_of (plain_record self.now)) }
    {
        // 1 and 2 are the format's own bytes, once in each direction; an enum of them would be matched a second time.
        match self {
            Record::Committed(entry) => {
                put(out, &[1]);
                write_entry(out, entry);
            }
            Record::Tentative(entry) => {
                put(out, &[2]);
                write_entry(out, entry);
            }
        }
    }

    // The record that a reader has next; its bytes are the one form that it has.
    pub(crate) fn read(reader: &mut Reader) -> Result<Record, Wrong>
        ensures value { MatchResult result
            (λ v. read_record reader.old.rest.now ≡ got (plain_record v) reader.new.rest.now)
            (λ e. read_record reader.old.rest.now ≡ wrong e) }
        ensures form { IfOk result (λ v. (reader.old.rest.now ≡ encode_record (plain_record v) ++ reader.new.rest.now) × EntryOk (entry_of (plain_record v))) }
    {
        match reader.one()? {
            1 => Ok(Record::Committed(reader.entry()?)),
            2 => Ok(Record::Tentative(reader.entry()?)),
            _ => Err(Wrong::Out),
        }
    }
}
