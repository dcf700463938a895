// Pseudo-random numbers for tests, the same ones in every run.
#![tactic(auto)]

pub mod numbers;
