// One dealing: the Deal and the shares that come of a dealer's coefficients, and the test of a share.
#![tactic(auto)]

pub mod deal;
pub mod fault;
pub mod report;
pub mod sides;
pub mod trial;
