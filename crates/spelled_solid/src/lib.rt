//! A solid of a file, with the words by which a text names its vertices and faces.
#![tactic(auto)]

mod naming;
mod tables;

pub use naming::SpelledSolid;
