//! What is known of the geometry of a solid: which vertices are at one place, and which curves are equal.
#![tactic(auto)]

mod arcs;
mod curves;
mod known;
mod lines;
mod surfaces;
mod values;

pub use known::known_of;
