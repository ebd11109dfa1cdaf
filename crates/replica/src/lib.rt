// A replica: its log, and a book that is always the one that the log makes.
#![tactic(auto)]

pub mod fault;
pub mod head;
pub mod laws;
pub mod parcel;
mod redo;
pub mod replica;
pub mod summary;
