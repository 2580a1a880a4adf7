//! What each step of a case's first walk does to the triangles of its surface and to its values, as text.
#![tactic(auto)]

mod steps;
mod stop;
mod text;
pub mod trace;
mod values;
