//! Tables of a shell: how many of its edge uses start at each vertex and how many loops without an edge lie there, and the
//! edge uses of each face.
#![tactic(auto)]

mod faces;
mod starting;

pub use faces::{FaceRows, face_of, face_rows};
pub use starting::{Points, Starts, all_points, all_starts, points_at, starts_at};
