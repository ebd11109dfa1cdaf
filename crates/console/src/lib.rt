// The programs' text: lines that ask for something, and lines that answer.
#![tactic(auto)]

pub mod answer;
pub mod command;
mod forms;
pub mod hex;
pub mod input;
mod language;
pub mod laws;
pub mod line;
pub mod mark;
pub mod number;
pub mod numbers;
pub mod request;
pub mod slip;
pub mod vector;
pub mod verb;
mod words;
