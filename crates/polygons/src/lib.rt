//! Polygons cut into triangles along diagonals: the second surface behind the interface.
#![tactic(auto)]

pub mod darts;
pub mod judging;
pub mod making;
pub mod polygon;
pub mod worked_walks;
