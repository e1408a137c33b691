//! An edge use of a shell.

use solid_data::{EdgeId, LoopAt, VertexId};
use std::mem::size_of;

/// An edge use of a shell. `along` is its direction after the flags of the loop's tuple, of the face in the shell, and
/// of the shell in the solid: along the edge where an even number of them are false. `from` and `to` are the edge's
/// vertices by that direction (IGES 5.3, 4.147, 4.149, 4.49).
#[derive(Clone, Copy)]
pub struct Row {
    /// The loop that has the use, by its face in the shell and its place in the face, both from 0.
    pub at: LoopAt,
    /// The edge, by its number in the solid.
    pub edge: EdgeId,
    /// Whether the use runs from the edge's start to its end.
    pub along: bool,
    /// The vertex at which the use starts, by its number in the solid.
    pub from: VertexId,
    /// The vertex at which the use ends, by its number in the solid.
    pub to: VertexId,
}

const _: () = prove!(size_of::<Row>() == 24);
