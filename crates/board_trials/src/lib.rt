// Tests of the calls of a ceremony in both groups: worked figures, refusals, readings, and that a refusal changes nothing.
#![tactic(auto)]

#[cfg(test)]
mod codes;
#[cfg(test)]
mod figures;
#[cfg(test)]
mod framing;
#[cfg(test)]
mod record;
#[cfg(test)]
mod refusals;
#[cfg(test)]
mod script;
#[cfg(test)]
mod states;
#[cfg(test)]
mod twins;
