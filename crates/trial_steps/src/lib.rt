//! The steps that end a remedy of a shell: turning, parting, splitting, and rims.
#![tactic(auto)]

mod fans;
mod filling;
mod parting;
mod separating;
mod splitting_edges;
mod splitting_vertices;
mod turning;
mod turning_loops;
mod turning_uses;

pub use fans::{Fans, Path, fans_of};
pub use filling::{fill, is_whole};
pub use parting::{By, part, sets_of};
pub use separating::separate;
pub use splitting_edges::{can_split_edges, rows_to_split, split_edges};
pub use splitting_vertices::split_vertices;
pub use turning::turn;
pub use turning_uses::turn_uses;
