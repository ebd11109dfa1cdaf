// The log of a replica: the order of marks, version vectors, and where an entry goes.
#![tactic(auto)]

pub mod log;
mod order;
mod room;
pub mod vector;
pub mod waiting;
