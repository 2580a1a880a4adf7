//! Numbers that are exact or refuse, of every kind: what a kind is, its faults, Ptolemy's relation, readers and a judge of rows.
#![tactic(auto)]

pub mod fault;
pub mod judge;
pub mod kind;
pub mod laws;
pub mod ptolemy;
pub mod read;
