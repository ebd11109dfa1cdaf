// The journal of a replica: its records as bytes, in memory or in a file, and a replica over it.
#![tactic(auto)]

pub mod appender;
pub mod disk;
pub mod fault;
pub mod journal;
pub mod keeper;
pub mod laws;
pub mod limits;
pub mod medium;
pub mod memory;
mod open;
pub mod opened;
pub mod phase;
pub mod record;
pub mod trouble;
