//! Walks: a table of steps that is edited in place.
#![tactic(auto)]

pub mod editing;
pub mod fault;
pub mod table;
pub mod walk;
