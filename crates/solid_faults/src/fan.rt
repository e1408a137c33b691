//! Vertices that aren't linked.

use solid_data::VertexId;

/// A vertex round which there isn't one fan alone, nor one loop without an edge alone: how many fans
/// and how many loops without an edge lie there.
#[derive(Clone, Copy)]
pub struct Unlinked {
    pub vertex: VertexId,
    pub fans: u32,
    pub points: u32,
}
