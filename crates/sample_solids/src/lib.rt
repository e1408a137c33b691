//! The sample files: closed meshes of squares on a torus.
#![tactic(auto)]

mod file;
mod index;
mod law;
mod values;

pub use file::sample_file;
pub use law::{samples_are_closed, samples_read_back};
