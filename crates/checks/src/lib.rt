//! Examples, run as tests: expected values are worked out from the rules by hand.
#![tactic(auto)]

#[cfg(test)]
mod faults;
#[cfg(test)]
mod matrices;
#[cfg(test)]
mod pages;
#[cfg(test)]
mod rules;
