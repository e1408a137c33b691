//! Flags for the faces of a solid's shells under which each edge is used in opposite directions: of the two lists that fit
//! a shell, each the reverse of the other, the one that is chosen.
#![tactic(auto)]

mod choosing;
mod fitting;
mod law;

pub use fitting::{FlagLists, fitting_flags};
pub use law::{one_choice, suited_is_sewn, two_lists_orient};
