// A guest's slip, and the bytes that it is kept as.
#![tactic(auto)]

pub mod answers;
pub mod laws;
pub mod slip;
