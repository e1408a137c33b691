//! What a search knows of a shell before it is changed, by numbers within the shell.

use crate::cells::item_at;
use crate::trial::TrialUse;
use shell_change::ArcKnown;

/// A face of the shell.
#[derive(Clone, Copy)]
pub struct FaceFact {
    /// The shell's orientation flag for it.
    pub flag: bool,
    /// The number of its surface's record.
    pub surface: u32,
    pub first_loop: u32,
    pub loops: u32,
}

/// A loop of the shell.
#[derive(Clone, Copy)]
pub struct LoopFact {
    pub face: u32,
    pub first_use: u32,
    pub uses: u32,
}

/// An edge of the shell.
#[derive(Clone, Copy)]
pub struct EdgeFact {
    /// Its number in the solid.
    pub number: u32,
    pub from: u32,
    pub to: u32,
    pub from_place: u32,
    pub to_place: u32,
    /// The number of its curve's record.
    pub record: u32,
    /// Whether it is a line without a matrix.
    pub is_line: bool,
    pub arc: Option<ArcKnown>,
}

/// A vertex of the shell.
#[derive(Clone, Copy)]
pub struct VertexFact {
    /// Its number in the solid.
    pub number: u32,
    pub place: u32,
    /// Whether an earlier shell has it.
    pub shared: bool,
}

/// A shell as flat lists.
#[derive(Drop)]
pub struct Facts {
    /// The solid's orientation flag for the shell.
    pub flag: bool,
    /// Whether it is the first shell.
    pub outer: bool,
    pub faces: Vec<FaceFact>,
    pub loops: Vec<LoopFact>,
    pub uses: Vec<TrialUse>,
    /// The loop of each use.
    pub loop_of: Vec<u32>,
    /// The face of each use.
    pub face_of: Vec<u32>,
    pub edges: Vec<EdgeFact>,
    pub vertices: Vec<VertexFact>,
    /// Of each edge the class of those that are sure to be it.
    pub sure: Vec<u32>,
    /// Of each edge the class of those between the same places.
    pub ends: Vec<u32>,
    /// Of each edge the class of those of equal curves.
    pub curves: Vec<u32>,
}

const NO_FACE: FaceFact = FaceFact {
    flag: false,
    surface: 0,
    first_loop: 0,
    loops: 0,
};

const NO_LOOP: LoopFact = LoopFact {
    face: 0,
    first_use: 0,
    uses: 0,
};

const NO_EDGE: EdgeFact = EdgeFact {
    number: 0,
    from: 0,
    to: 0,
    from_place: 0,
    to_place: 0,
    record: 0,
    is_line: false,
    arc: None,
};

const NO_VERTEX: VertexFact = VertexFact {
    number: 0,
    place: 0,
    shared: false,
};

impl Facts {
    pub fn face(&self, i: u32) -> FaceFact {
        item_at(&self.faces, i, NO_FACE)
    }

    pub fn walk(&self, i: u32) -> LoopFact {
        item_at(&self.loops, i, NO_LOOP)
    }

    pub fn edge(&self, i: u32) -> EdgeFact {
        item_at(&self.edges, i, NO_EDGE)
    }

    pub fn vertex(&self, i: u32) -> VertexFact {
        item_at(&self.vertices, i, NO_VERTEX)
    }
}
