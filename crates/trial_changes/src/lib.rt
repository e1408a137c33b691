//! The change of a shell that a trial made, with where everything comes from.
#![tactic(auto)]

mod changing;
mod comparing;
mod moving;
mod naming;
mod seaming;
mod telling;
mod views;

pub use changing::change_of;
pub use comparing::{are_alike, is_alike, removed_alike};
pub use seaming::{Seams, seams_of};
