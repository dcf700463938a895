// The protocol in definitions: records, the board, refusals, custodians, and the theorems about them.
#![tactic(auto)]

pub mod fault;
pub mod kind;
pub mod numbers;
pub mod phase;
pub mod recovered;
pub mod report;
pub mod row;
pub mod state;
pub mod telling;
pub mod theorems;
