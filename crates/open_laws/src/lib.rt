//! What holds of the shells of files as open ones: each shell of a closed solid is sound, and has no border; and which lines of an
//! open shell's certificate are determined: all but the reach lines.
#![tactic(auto)]

mod law;

pub use law::{closed_is_sound, differ_in_reach};
