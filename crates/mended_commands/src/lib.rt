//! Telling how a solid is mended, as a command: the same answers as mending, but in place of a file what is changed.
#![tactic(auto)]

mod law;
mod remedies;
mod telling;

pub use law::some_mended_answer;
pub use telling::mended_solid;
