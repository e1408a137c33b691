//! A change of a shell as data: which faces stay, in which pieces, and what the uses of their loops name then. And what such a
//! change may be, clause by clause, decided exactly, in time linear in the change.
//!
//! A change comes from a search that may be as clever as it likes: where everything comes from stands in the change, so
//! that each item is looked at by itself. Geometry is known here by numbers alone, equal where the records are equal.
#![tactic(auto)]

mod change;
mod geometry;
mod keeping;
mod loops;
mod moves;
mod pieces;
mod seams;
mod tracks;
mod uses;

pub use change::{
    Change, EdgeName, EdgeNow, FaceNow, Fate, LoopNow, Move, NewEdge, NewVertex, Remedy, Rim,
    RimEdge, Seam, Told, UseNow, VertexName,
};
pub use geometry::{ArcKnown, CurveKnown, Geometry, Known};
pub use keeping::keeps_geometry;
pub use loops::item_at;
pub use pieces::pieces_in_order;
