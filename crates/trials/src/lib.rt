// Tests of both groups: every code, what is written, and the arithmetic against plain numbers.
#![tactic(auto)]

#[cfg(test)]
mod codes;
#[cfg(test)]
mod constants;
#[cfg(test)]
mod powers;
#[cfg(test)]
mod products;
#[cfg(test)]
mod reading;
#[cfg(test)]
mod scalars;
#[cfg(test)]
mod writing;
