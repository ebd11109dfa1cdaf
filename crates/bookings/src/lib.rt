// A book of beds that entries change: what an entry does to it, and how that is undone.
#![tactic(auto)]

pub mod book;
mod effects;
pub mod entry;
mod free;
pub mod laws;
pub mod limits;
mod nights;
pub mod outcome;
pub mod refusal;
mod standing;
mod undo;
