//! Sewing: which edges of a shell are one, and which vertices become one with them.
#![tactic(auto)]

mod linking;
mod pairing;
mod sewing;
mod sewn;

pub use sewing::{seams_at, sew};
pub use sewn::{Link, SeamCounts, Sewn, unsewn};
