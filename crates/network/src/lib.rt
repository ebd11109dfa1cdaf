// Replicas that hand letters on to each other, and what holds of all of them together.
#![tactic(auto)]

pub mod act;
pub mod laws;
pub mod outcome;
pub mod rehearsal;
pub mod report;
pub mod stage;
pub mod takes;
pub mod unplayed;
pub mod unsent;
pub mod writes;
