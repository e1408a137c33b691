//! A shell while steps change it.

use crate::cells::{NONE, item_at, put_item, short};
use crate::facts::{EdgeFact, FaceFact, Facts};
use crate::memory::Memory;
use std::mem::replace;

/// A use of an edge or of a vertex.
#[derive(Clone, Copy)]
pub struct TrialUse {
    pub on_edge: bool,
    /// The edge, or the vertex.
    pub item: u32,
    /// The flag of a use of an edge.
    pub along: bool,
}

/// An edge.
#[derive(Clone, Copy)]
pub struct TrialEdge {
    /// The edge of the shell whose curve it has.
    pub like: u32,
    pub from: u32,
    pub to: u32,
    /// Whether it was split off, so that it is a new one in any case.
    pub split: bool,
}

/// Where a vertex comes from.
#[derive(Clone, Copy)]
pub enum VertexKind {
    /// It is one of the shell.
    Own,
    /// It is that which a later body has of one that an earlier body has, too.
    Copied,
    /// It was split off.
    Split,
}

/// A vertex.
#[derive(Clone, Copy)]
pub struct TrialVertex {
    /// The vertex of the shell that it is like.
    pub like: u32,
    pub kind: VertexKind,
}

/// An edge of a rim, and the flag of its use there.
#[derive(Clone, Copy)]
pub struct RimRow {
    pub edge: u32,
    pub along: bool,
}

/// A rim, by its place in the list of rows of rims.
#[derive(Clone, Copy)]
pub struct Rim {
    pub piece: u32,
    pub first: u32,
    pub count: u32,
}

/// A shell while steps change it. Its first edges and vertices are those of the shell.
#[derive(Drop)]
pub struct Trial {
    pub uses: Vec<TrialUse>,
    /// Of each loop, whether it was reversed.
    pub reversed: Vec<bool>,
    /// Of each face the shell's flag for it.
    pub flags: Vec<bool>,
    /// Of each face its piece; `NONE` if it is removed.
    pub pieces: Vec<u32>,
    pub piece_count: u32,
    pub edges: Vec<TrialEdge>,
    pub vertices: Vec<TrialVertex>,
    pub rims: Vec<Rim>,
    pub rim_rows: Vec<RimRow>,
    pub cost: u32,
    /// Whether it rests on equal records or on counts alone.
    pub sure: bool,
    /// How crowded edges were split: 0 if they weren't, else one more than by how many places.
    pub split: u32,
}

const NO_USE: TrialUse = TrialUse {
    on_edge: false,
    item: NONE,
    along: true,
};

const NO_EDGE: TrialEdge = TrialEdge {
    like: NONE,
    from: NONE,
    to: NONE,
    split: false,
};

const NO_VERTEX: TrialVertex = TrialVertex {
    like: NONE,
    kind: VertexKind::Own,
};

impl Trial {
    pub fn item(&self, i: u32) -> TrialUse {
        item_at(&self.uses, i, NO_USE)
    }

    pub fn edge(&self, i: u32) -> TrialEdge {
        item_at(&self.edges, i, NO_EDGE)
    }

    pub fn vertex(&self, i: u32) -> TrialVertex {
        item_at(&self.vertices, i, NO_VERTEX)
    }

    pub fn put_use(&mut self, i: u32, item: TrialUse) {
        put_item(&mut self.uses, i, item);
    }

    pub fn put_edge(&mut self, i: u32, edge: TrialEdge) {
        put_item(&mut self.edges, i, edge);
    }

    /// One more edge; its number.
    pub fn add_edge(&mut self, memory: &mut Memory, edge: TrialEdge) -> u32 {
        let number = short(self.edges.len());
        memory.add(&mut self.edges, edge);
        number
    }

    /// One more vertex; its number.
    pub fn add_vertex(&mut self, memory: &mut Memory, vertex: TrialVertex) -> u32 {
        let number = short(self.vertices.len());
        memory.add(&mut self.vertices, vertex);
        number
    }

    pub fn pay(&mut self, cost: u32) {
        self.cost = self.cost.saturating_add(cost);
    }
}

fn first_edges(memory: &mut Memory, edges: &[EdgeFact]) -> Vec<TrialEdge> {
    let mut out = memory.room(edges.len());
    'edges: for i in 0..edges.len() {
        let edge = edges[i];
        memory.add(
            &mut out,
            TrialEdge {
                like: short(i),
                from: edge.from,
                to: edge.to,
                split: false,
            },
        );
    }
    out
}

fn first_vertices(memory: &mut Memory, count: u32) -> Vec<TrialVertex> {
    let mut out = memory.room(count as usize);
    'vertices: for like in 0..count {
        memory.add(
            &mut out,
            TrialVertex {
                like,
                kind: VertexKind::Own,
            },
        );
    }
    out
}

fn first_flags(memory: &mut Memory, faces: &[FaceFact]) -> Vec<bool> {
    let mut out = memory.room(faces.len());
    'faces: for i in 0..faces.len() {
        memory.add(&mut out, faces[i].flag);
    }
    out
}

/// A shell of nothing.
fn no_trial(memory: &Memory) -> Trial {
    Trial {
        uses: memory.list(),
        reversed: memory.list(),
        flags: memory.list(),
        pieces: memory.list(),
        piece_count: 0,
        edges: memory.list(),
        vertices: memory.list(),
        rims: memory.list(),
        rim_rows: memory.list(),
        cost: 0,
        sure: false,
        split: 0,
    }
}

/// Moves a trial out of its place, where nothing is left of it.
pub fn taken(memory: &Memory, trial: &mut Trial) -> Trial {
    replace(trial, no_trial(memory))
}

/// A shell before anything is changed.
pub fn first_trial(memory: &mut Memory, facts: &Facts) -> Trial {
    let faces = short(facts.faces.len());
    Trial {
        uses: memory.copied(&facts.uses),
        reversed: memory.unset(short(facts.loops.len())),
        flags: first_flags(memory, &facts.faces),
        pieces: memory.filled(faces, 0),
        piece_count: 1,
        edges: first_edges(memory, &facts.edges),
        vertices: first_vertices(memory, short(facts.vertices.len())),
        rims: memory.list(),
        rim_rows: memory.list(),
        cost: 0,
        sure: true,
        split: 0,
    }
}

/// The same again.
pub fn copy_of(memory: &mut Memory, trial: &Trial) -> Trial {
    Trial {
        uses: memory.copied(&trial.uses),
        reversed: memory.copied(&trial.reversed),
        flags: memory.copied(&trial.flags),
        pieces: memory.copied(&trial.pieces),
        piece_count: trial.piece_count,
        edges: memory.copied(&trial.edges),
        vertices: memory.copied(&trial.vertices),
        rims: memory.copied(&trial.rims),
        rim_rows: memory.copied(&trial.rim_rows),
        cost: trial.cost,
        sure: trial.sure,
        split: trial.split,
    }
}
