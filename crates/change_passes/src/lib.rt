//! Whether a shell passes after a change: whether the pieces into which it falls are closed, and have no vertex of an earlier shell.
#![tactic(auto)]

mod judging;
mod passing;

pub use passing::{passes, passes_before};
