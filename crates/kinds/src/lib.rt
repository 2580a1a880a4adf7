//! The two kinds of numbers: weights and fractions.
#![tactic(auto)]

pub mod divisor;
pub mod fraction;
mod page;
pub mod weight;
