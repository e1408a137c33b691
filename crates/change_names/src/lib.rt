//! The edges and the vertices that a change of a shell names: old ones are the shell's.
#![tactic(auto)]

mod names;
mod owning;

pub use names::{are_own, uses_after};
pub use owning::is_among;
