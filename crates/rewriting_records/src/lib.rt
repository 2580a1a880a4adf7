//! Records of rewritings: which rewriting a record spells, and why a rewriting is refused.
#![tactic(auto)]

pub mod fault;
pub mod record;
