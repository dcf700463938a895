// The index of the records on a board, and what holds of a ceremony's area and index.
#![tactic(auto)]

pub mod index;
