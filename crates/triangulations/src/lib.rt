//! Labelled triangulations: tables of followers, steps on them, and the board on which steps run.
#![tactic(auto)]

pub mod board;
pub mod darts;
pub mod loading;
pub mod moves;
pub mod quadrilateral;
pub mod records;
pub mod relations;
pub mod step;
mod table;
