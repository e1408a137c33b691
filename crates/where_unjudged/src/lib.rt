//! What is said of what stands in a file beside its solids: how much there is of it, and what can be done; and of an entity
//! that was taken for a solid.
#![tactic(auto)]

mod counting;
mod hints;
mod kind_hints;
mod lines;
mod listed;
mod loose;
mod marking;
mod member;
mod telling;

pub use kind_hints::{put_kind_hint, put_shells_hint};
pub use listed::{solids, true_solids};
pub use telling::put_unjudged;
