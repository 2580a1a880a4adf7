//! The text of refusals, surfaces, steps and triangles in a trace.
#![tactic(auto)]

pub mod lines;
pub mod triangles;
