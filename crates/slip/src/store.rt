// The file of a slip.
use anyhow::{Context, bail};
use guest::slip::Slip;
use std::fs::{File, TryLockError};
use std::io::{ErrorKind, Write};
use std::{fs, io};

const PATH: &str = "slip";

// The next slip is written here, and takes the other's place when it is whole and synced: so a crash leaves one of both.
const NEXT: &str = "slip.new";

#[derive(Drop)]
pub struct Store {
    slip: Slip,
    // The folder, which is locked as long as it is open.
    folder: File,
}

impl Store {
    // No file is the slip of a guest who knows nothing.
    pub fn open(rt: &HostRuntime) -> anyhow::Result<Store> {
        let folder = File::open(rt, ".").context("the folder cannot be opened")?;
        match folder.try_lock() {
            Ok(()) => {}
            Err(TryLockError::WouldBlock) => bail!("another `slip` runs in this folder"),
            Err(TryLockError::Error(why)) => {
                return Err(why).context("the folder cannot be locked");
            }
        }
        let slip = match fs::read(rt, PATH) {
            Ok(bytes) => Slip::read(bytes.as_slice()).context("the file `slip` is left as it is")?,
            Err(why) if why.kind() == ErrorKind::NotFound => Slip::new(),
            Err(why) => return Err(why).context("the file `slip` cannot be read"),
        };
        Ok(Store { slip, folder })
    }

    pub fn slip(&self) -> Slip {
        self.slip
    }

    // The slip is in the file, and synced. Where it is the same, there is nothing to do.
    pub fn keep(&mut self, rt: &HostRuntime, slip: Slip) -> anyhow::Result<()> {
        if slip != self.slip {
            self.replace(rt, &slip)
                .context("the file `slip` cannot be written")?;
            self.slip = slip;
        }
        Ok(())
    }

    fn replace(&self, rt: &HostRuntime, slip: &Slip) -> io::Result<()> {
        let mut file = File::create(rt, NEXT)?;
        file.write_all(slip.bytes(rt.alloc())?.as_slice())?;
        file.sync_all()?;
        fs::rename(rt, NEXT, PATH)?;
        self.folder.sync_all()
    }
}
