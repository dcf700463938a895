// A ceremony over a lent area of bytes: opening, posting, and what the taken records decide.
#![tactic(auto)]

pub mod ceremony;
mod checks;
mod closing;
pub mod lookup;
pub mod opening;
pub mod posting;
