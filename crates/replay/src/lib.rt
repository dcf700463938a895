// Posting the records of a file one after another.
#![tactic(auto)]

pub mod replay;
pub mod replayed;
