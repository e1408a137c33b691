//! Mending as a command: the file in which a solid is closed, or why there is none.
#![tactic(auto)]

mod law;
mod mending;
mod naming;
mod state;
mod telling;
mod writable;

pub use law::{
    closed_is_extracted, mended_reads_back, one_mend_answer, one_mended, some_mend_answer,
};
pub use mending::{mend_solid, mending_of};
pub use naming::{Again, WithoutTwice, without_twice};
pub use solid_mend::{Choice, Unmended};
pub use state::{Shells, State, state_of};
pub use telling::unmended;
pub use writable::recall_writable;
