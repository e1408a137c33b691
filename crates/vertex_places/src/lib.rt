//! Vertices whose coordinates are equal numbers, however the file spells them.
#![tactic(auto)]

mod finding;
mod key;

pub use finding::vertex_places;
pub use key::put_value;
