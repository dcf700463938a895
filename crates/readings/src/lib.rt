// What can be read off the board of a ceremony.
#![tactic(auto)]

pub mod key;
pub mod reveals;
pub mod seats;
mod serving;
pub mod words;
