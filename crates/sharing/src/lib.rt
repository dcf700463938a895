// Values on a polynomial, for everything that can be added and scaled.
#![tactic(auto)]

pub mod commitment;
pub mod element;
pub mod evaluation;
pub mod interpolation;
pub mod linear;
pub mod pair;
pub mod scalar;
pub mod seats;
