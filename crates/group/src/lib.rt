// The interface of a sealing group, and all that is the same for every group.
#![tactic(auto)]

pub mod codes;
pub mod fault;
pub mod group;
pub mod modular;
pub mod operation;
pub mod powers;
pub mod reason;
