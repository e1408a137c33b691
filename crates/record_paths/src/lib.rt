//! Through which shell, face and loop of a solid the way leads to the place of a record that fails.
#![tactic(auto)]

mod edges;
mod ended;
mod faces;
mod law;
mod loops;
mod naming;
mod path;
mod records;
mod search;
mod shells;
mod text;
mod tuples;

pub use law::{one_path, paths_are_of_places};
pub use path::{Path, Step};
pub use search::path_of;
pub use text::put_path;
