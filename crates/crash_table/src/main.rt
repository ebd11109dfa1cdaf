// A table of crashes: each byte at which the journal of a script can break off, in memory and in a file, and what is opened then.
#![tactic(auto)]

mod crashes;
mod cuts;
mod script;
mod states;

use replica::replica::Replica;
use script::Step;
use states::Played;

// Where the rows go, the steps that are played, and what they lead to: after no step, after the first, and so on.
#[derive(Drop)]
pub struct Table<'a> {
    rt: &'a HostRuntime,
    steps: &'a [Step],
    states: Vec<Played>,
}

impl<'a> Table<'a> {
    // One row: what was opened, how many bytes were cut off, and after which step it was so.
    fn row(&self, replica: &Replica, cut: usize, step: Option<usize>) -> anyhow::Result<()> {
        let rt = self.rt;
        let committed = replica.committed();
        let count = replica.entries().len();
        print!(rt; "{committed} committed, {count} in all, {cut} bytes cut")?;
        match step {
            Some(step) => println!(rt; ", as after step {step}")?,
            None => println!(rt; ", ERROR: it was never so")?,
        }
        Ok(())
    }
}

fn main(rt: HostRuntime) -> anyhow::Result<()> {
    let steps = script::script(rt.alloc())?;
    let table = Table::new(&rt, steps.as_slice())?;
    table.crashes()?;
    table.cuts()
}
