//! Polygons cut along diagonals, and the counting of diagonals that shows when they are cut into triangles.
#![tactic(auto)]

pub mod diagonal;
pub mod theorem;
