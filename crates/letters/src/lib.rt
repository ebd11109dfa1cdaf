// Entries and letters as bytes.
#![tactic(auto)]

mod coded;
pub mod laws;
pub mod letter;
pub mod limits;
pub mod reader;
pub mod unwritten;
pub mod writer;
pub mod wrong;
