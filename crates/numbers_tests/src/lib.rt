//! Tests of the number kinds. The expected values of the tables were worked out by hand or by Python's own fractions.
#![tactic(auto)]

#[cfg(test)]
mod common;
#[cfg(test)]
mod flips;
#[cfg(test)]
mod fractions;
#[cfg(test)]
mod reading;
#[cfg(test)]
mod texts;
#[cfg(test)]
mod timing;
#[cfg(test)]
mod weights;
