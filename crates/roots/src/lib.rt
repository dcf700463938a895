// The Q-th roots of the unit among the candidates: one group for each choice of candidates.
#![tactic(auto)]

pub mod candidates;
pub mod factors;
pub mod roots;
