// A file as a medium. No contract of the library says what a file has, so the members say nothing here: `holds` holds of
// all bytes, and `finds` of none. These three calls are trusted to do what `Medium` says, after failures and stops too, and
// `find` to give the bytes that the file has: so that what it gives is, as `Found` says, all that was synced and some first
// part of what was written behind it.
ghost use Rattle.std.specs.Prelude.{ℕ, List};
ghost use Rattle.std.proofs.Common.{rules};

use crate::fault::Fault;
use crate::medium::Medium;
use std::fs::{File, OpenOptions};
use std::io;
use std::io::{Read, Write};

// The file of a journal, and all bytes that were found in it.
#[derive(Drop)]
pub struct Found {
    pub file: File,
    pub bytes: Vec<u8>,
}

// Opens the file of a journal that stands in a folder, made if there is none, and reads all of it. The folder is synced
// at each opening, since who made the file may have ended before that was done.
pub fn find(rt: &HostRuntime, folder: &str, path: &str) -> io::Result<Found> {
    let mut how = OpenOptions::new();
    how.read(true).append(true).create(true);
    let mut file = how.open(rt, path)?;
    let held = File::open(rt, folder)?;
    held.sync_all()?;
    let mut bytes = Vec::new(rt.alloc());
    file.read_to_end(&mut bytes)?;
    Ok(Found { file, bytes })
}

impl Medium for File {
    ghost holds = { λ _ _ _. Unit {0} };

    ghost finds = { λ _ _. ⊥ };

    ghost room = { λ _. 0 };

    ghost found_after = { Prim.search rules };

    fn put(&mut self, more: &[u8]) -> Result<(), Fault> {
        self.write_all(more)?;
        Ok(())
    }

    fn settle(&mut self) -> Result<(), Fault> {
        self.sync_all()?;
        Ok(())
    }

    fn cut(&mut self, left: usize) -> Result<(), Fault> {
        // No `From` makes a u64 of a usize; nothing is lost by `as`.
        self.set_len(left as u64)?;
        Ok(())
    }
}
