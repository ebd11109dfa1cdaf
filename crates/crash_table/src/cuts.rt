// A journal in a file is cut at each byte, and opened again.
use crate::Table;
use crate::script::play;
use anyhow::{Context, anyhow};
use journal::appender::Appender;
use journal::disk::find;
use journal::keeper::Keeper;
use std::fs;
use std::fs::{File, OpenOptions};

// Opens the journal in a file; says how many bytes were cut off.
fn open(rt: &HostRuntime, path: &str) -> anyhow::Result<(Keeper<Appender<File>>, usize)> {
    let found = find(rt, ".", path)?;
    let opened = Keeper::open(rt.alloc(), 0, found.file, found.bytes.as_slice()).map_err(
        |_| anyhow!("not opened"),
    )?;
    Ok((opened.keeper, opened.cut))
}

// A file with the first so many of these bytes, written whole and then cut.
fn cut_file(rt: &HostRuntime, bytes: &[u8], left: usize) -> anyhow::Result<()> {
    fs::write(rt, "cut", bytes)?;
    let mut how = OpenOptions::new();
    how.write(true);
    let file = how.open(rt, "cut")?;
    // No `From` makes a u64 of a usize; nothing is lost by `as`.
    file.set_len(left as u64)?;
    Ok(())
}

impl<'a> Table<'a> {
    // The bytes of the journal that the steps write.
    fn written(&self) -> anyhow::Result<Vec<u8>> {
        let (mut keeper, _) = open(self.rt, "line")?;
        play(&mut keeper, self.steps)?;
        let found = find(self.rt, ".", "line")?;
        Ok(found.bytes)
    }

    pub fn cuts(&self) -> anyhow::Result<()> {
        let rt = self.rt;
        let bytes = self.written()?;
        for left in 0..=bytes.len() {
            cut_file(rt, bytes.as_slice(), left)?;
            let (keeper, cut) = open(rt, "cut")?;
            let replica = keeper.shown().context("not synced when it was opened")?;
            print!(rt; "file of {left}: ")?;
            self.row(replica, cut, self.find(0, replica))?;
            let length = fs::metadata(rt, "cut")?.len();
            // As above.
            if length != left.saturating_sub(cut) as u64 {
                println!(rt; "ERROR the file has {length} bytes")?;
            }
        }
        fs::remove_file(rt, "cut")?;
        fs::remove_file(rt, "line")?;
        Ok(())
    }
}
