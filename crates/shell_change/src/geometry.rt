//! What is known of the geometry of a solid.

use iges_base::ItemList;

/// What is known of the curve of an edge.
#[derive(Clone, Copy)]
pub struct CurveKnown {
    /// Equal numbers where the records of two curves are equal, and only there.
    pub record: u32,
    /// Of a line without a matrix: equal numbers where two lines have the same two points, in either order, and only there.
    /// None of any other curve.
    pub line: Option<u32>,
}

/// What is known of the geometry of a solid, by numbers.
#[derive(Drop)]
pub struct Geometry {
    /// Of each vertex of the solid the number of its place: equal numbers where the coordinates of two are equal, and only
    /// there.
    pub places: ItemList<u32>,
    /// The curve of each edge of the solid.
    pub curves: ItemList<CurveKnown>,
}

/// What is known of an arc.
#[derive(Clone, Copy)]
pub struct ArcKnown {
    /// Equal numbers where two arcs have equal ZT, centre, form and matrix.
    pub circle: u32,
    /// Equal numbers where two points of arcs have equal X and Y: that of its start point.
    pub start: u32,
    /// The same of its end point.
    pub end: u32,
}

/// What a search for changes knows of a solid beside its topology.
#[derive(Drop)]
pub struct Known {
    pub geometry: Geometry,
    /// Of each face, in the order in which the shells list them, the number of its surface's record: equal numbers where the
    /// records are equal.
    pub surfaces: ItemList<u32>,
    /// Of each edge of the solid: what is known of its curve, if that is an arc.
    pub arcs: ItemList<Option<ArcKnown>>,
}
