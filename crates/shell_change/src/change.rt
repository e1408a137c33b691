//! A change of a shell as data.

use iges_base::ItemList;
use solid_data::{EdgeId, ShellAt, VertexId};

/// A vertex that a changed shell names.
#[derive(Clone, Copy)]
pub enum VertexName {
    /// One of the solid's.
    Old(VertexId),
    /// A new one, by its place in the change's list, from 0.
    New(u32),
}

/// An edge that a changed shell names.
#[derive(Clone, Copy)]
pub enum EdgeName {
    /// One of the solid's.
    Old(EdgeId),
    /// A new one, by its place in the change's list, from 0.
    New(u32),
}

/// A new vertex.
#[derive(Clone, Copy)]
pub struct NewVertex {
    /// The old vertex whose coordinates it has.
    pub like: VertexId,
}

/// A new edge. Each of its ends is at the place where that of the old edge is, or has moved.
#[derive(Clone, Copy)]
pub struct NewEdge {
    /// The old edge whose curve it has.
    pub like: EdgeId,
    pub from: VertexName,
    pub to: VertexName,
    /// By which move its start has moved; None where it stays.
    pub from_by: Option<u32>,
    /// By which move its end has moved; None where it stays.
    pub to_by: Option<u32>,
}

/// How the two edges of a seam are equal.
#[derive(Clone, Copy, PartialEq, Eq)]
pub enum Told {
    /// They are lines between the same two places; or they have equal curves, one start and one end.
    Sure,
    /// They are between the same two places.
    Places,
    /// They have equal curves alone.
    Curve,
}

/// A pair of old edges that are sewn together: uses of one take the curve of the other.
#[derive(Clone, Copy)]
pub struct Seam {
    pub left: EdgeId,
    pub taken: EdgeId,
    pub told: Told,
}

/// A way from a place to another, by corresponding ends of a seam: from an end of the edge that is left to that of the edge that
/// is taken, or back. A way of several steps names the move that it goes on from.
#[derive(Clone, Copy)]
pub struct Move {
    pub from: u32,
    pub to: u32,
    /// The seam of its last step, by its place in the change's list.
    pub seam: u32,
    /// Whether that step is at the end of the edge that is left, or at its start.
    pub at_end: bool,
    /// Whether it leads back from the edge that is taken.
    pub back: bool,
    /// An earlier move, after which that step comes; None where it is the only one.
    pub after: Option<u32>,
}

/// What a use of an edge is after the change.
#[derive(Clone, Copy)]
pub struct EdgeNow {
    pub edge: EdgeName,
    pub along: bool,
    /// Whether it runs the other way than before.
    pub turned: bool,
    /// The seam by which it has another curve; None where it has its own.
    pub seam: Option<u32>,
    /// By which move its start has moved; None where it stays.
    pub start_by: Option<u32>,
    /// By which move its end has moved; None where it stays.
    pub end_by: Option<u32>,
}

/// What a use is after the change.
#[derive(Clone, Copy)]
pub enum UseNow {
    OnEdge(EdgeNow),
    /// It is at a vertex, and by which move it has moved there; None where it stays.
    AtVertex { vertex: VertexName, by: Option<u32> },
}

/// What a loop is after the change.
#[derive(Drop)]
pub struct LoopNow {
    /// Whether its uses stand in the opposite order now, each edge use with the other flag, before they are compared.
    pub reversed: bool,
    pub uses: ItemList<UseNow>,
}

/// What a face is after the change.
#[derive(Drop)]
pub struct FaceNow {
    /// Its piece: pieces are numbered from 0 in the order of their first faces.
    pub piece: u32,
    /// The shell's orientation flag for it.
    pub flag: bool,
    pub loops: ItemList<LoopNow>,
}

/// What becomes of a face.
#[derive(Drop)]
pub enum Fate {
    Removed,
    Kept(FaceNow),
}

/// An edge of a rim, and the flag of its use there.
#[derive(Clone, Copy)]
pub struct RimEdge {
    pub edge: EdgeName,
    /// The flag that the new face's loop has for it.
    pub along: bool,
}

/// A ring of edges of a piece on which a face must be made anew: its only loop uses these edges in this order, and its flag is
/// that of the shell.
#[derive(Drop)]
pub struct Rim {
    /// The piece that has the new face.
    pub piece: u32,
    pub edges: ItemList<RimEdge>,
}

/// A change of a shell.
#[derive(Drop)]
pub struct Change {
    pub shell: ShellAt,
    /// What becomes of each face of the shell, in the shell's order.
    pub faces: ItemList<Fate>,
    pub vertices: ItemList<NewVertex>,
    pub edges: ItemList<NewEdge>,
    pub seams: ItemList<Seam>,
    pub moves: ItemList<Move>,
    /// The faces that must be made anew, each by its rim.
    pub rims: ItemList<Rim>,
}

/// A change that was tried, and what decides which comes first.
#[derive(Drop)]
pub struct Remedy {
    pub change: Change,
    /// The less, the earlier it is told.
    pub cost: u32,
    /// Whether it rests on equal records or on counts alone, and no other of its cost removes other faces.
    pub sure: bool,
}
