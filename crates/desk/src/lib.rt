// What a warden asks of a hut, and is told.
#![tactic(auto)]

pub mod answers;
pub mod asks;
pub mod calls;
pub mod laws;
pub mod page;
pub mod reply;
pub mod says;
pub mod station;
