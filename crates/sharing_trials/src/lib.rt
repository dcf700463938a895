// Tests of sharing and dealing in both groups: values, interpolation, seats, refusals, and whole dealings.
#![tactic(auto)]

#[cfg(test)]
mod dealings;
#[cfg(test)]
mod recovery;
#[cfg(test)]
mod refusals;
#[cfg(test)]
mod refused_deals;
#[cfg(test)]
mod refused_trials;
#[cfg(test)]
mod sample;
#[cfg(test)]
mod seats;
#[cfg(test)]
mod values;
