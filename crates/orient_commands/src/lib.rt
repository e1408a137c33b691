//! Orientation as commands: the text of flags and rings for all shells of a solid of a file, and its verification.
//!
//! The text is a line `ORIENT` with the number of the solid, for each shell in order a line `F` with flags for its faces
//! or a line `O` with rows that are an odd ring, and a line `END`.
#![tactic(auto)]

mod counting;
mod fault;
mod fitting;
mod law;
mod lines;
mod making;
mod orienting;
mod reading;
mod verifying;

pub use law::{
    fitting_flags_close, one_orient_answer, orientations_are_accepted, some_orient_answer,
};
pub use orienting::{orient_solid, orient_walked};
pub use verifying::verify_orientation;
