//! Surfaces cut into triangles, behind one interface.
#![tactic(auto)]

pub mod faults;
pub mod loading;
pub mod surface_trait;
pub mod torus;
pub mod worked_walks;
