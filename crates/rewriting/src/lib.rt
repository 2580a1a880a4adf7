//! Rewriting a walk by a record: judging it, and doing what its rule says.
#![tactic(auto)]

mod carrying_over;
mod finding;
pub mod pentagon;
pub mod replay;
pub mod rewrite;
mod rules;
pub mod run;
mod site;
