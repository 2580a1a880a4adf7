//! The sections and records of a case file, read from left to right, and why a case is refused.
#![tactic(auto)]

pub mod cursor;
pub mod record;
pub mod refusal;
pub mod surface_section;
pub mod values_section;
pub mod walk_section;
