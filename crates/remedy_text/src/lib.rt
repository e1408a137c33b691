//! The paragraphs of a remedy: a change of a shell, told step by step.
//!
//! Everything that is new is told by what it comes of, so by the numbers of the file whose solid is given.
#![tactic(auto)]

mod bodies;
mod body_steps;
mod edge_steps;
mod face_steps;
mod loop_steps;
mod loops;
mod remedy;
mod sentences;
mod told;
mod turned_uses;
mod view;
mod words;

pub use remedy::{Heading, put_more_remedies, put_remedy, put_stuck};
pub use view::RemedyView;
