//! The file in which a solid is closed, made of its file by changes of topology records alone.
#![tactic(auto)]

mod copies;
mod judging;
mod mending;
mod shells;
mod taking;

pub use mending::{Choice, Mended, Mending, Unmended, mend};
