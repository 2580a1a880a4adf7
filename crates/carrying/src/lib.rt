//! Values of any number kind carried along a walk, a row for each edge.
#![tactic(auto)]

pub mod agreement;
pub mod carry;
pub mod refusal;
