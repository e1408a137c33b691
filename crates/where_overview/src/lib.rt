//! What is said of all solids of a file: the verdict on each.
#![tactic(auto)]

mod judging;
mod overview;
mod recalling;

pub use overview::{Overview, tell_all};
