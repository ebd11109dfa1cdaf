// A rehearsal: some huts in memory, and what they answer.
#![tactic(auto)]

pub mod cast;
