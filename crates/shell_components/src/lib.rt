//! What parts of a shell are found by: the components of pairs, the places of numbers in a list, and the edges
//! and the vertices that faces use.
#![tactic(auto)]

mod grouping;
mod joining;
mod ranking;
mod rising;
mod used;

pub use joining::components;
pub use ranking::{Groups, grouped};
pub use rising::rise;
pub use used::{Used, add_face, nothing_used, used_by};
