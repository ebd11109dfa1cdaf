// A journal in memory crashes at each byte that is not synced.
use crate::Table;
use crate::script::Step;
use crate::states::played;
use anyhow::Context;

// No more bytes than this are ever kept.
const MOST: usize = 1000;

// After how many steps all was synced for the last time.
fn last_sync(steps: &[Step]) -> usize {
    steps
        .iter()
        .rposition(|step| step.is_synced())
        .map_or(0, |last| last + 1)
}

impl<'a> Table<'a> {
    // Crashes after these steps, once for each number of bytes kept, up to where nothing is lost.
    fn crashes_after(&self, steps: &[Step]) -> anyhow::Result<()> {
        let rt = self.rt;
        let from = last_sync(steps);
        let count = steps.len();
        println!(rt; "after {count} steps, synced after {from}:")?;
        for kept in 0..MOST {
            let mut keeper = played(rt.alloc(), steps)?;
            let cut = keeper.crash(kept);
            let replica = keeper.shown().context("not synced after a crash")?;
            print!(rt; "kept {kept}: ")?;
            let step = self.find(from, replica);
            self.row(replica, cut, step)?;
            if step == Some(count) {
                return Ok(());
            }
        }
        println!(rt; "ERROR: something is always lost")?;
        Ok(())
    }

    // Crashes before each sync, and at the end; a crash elsewhere is one of these that keeps fewer bytes.
    pub fn crashes(&self) -> anyhow::Result<()> {
        for (count, step) in self.steps.iter().enumerate() {
            if step.is_synced() {
                self.crashes_after(&self.steps[..count])?;
            }
        }
        self.crashes_after(self.steps)
    }
}
