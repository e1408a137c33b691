//! What the edges and the vertices of a trial are called.

use shell_change::{EdgeName, VertexName};
use shell_trial::{Facts, Memory, NONE, Trial, VertexKind, at, is_set, put, set, short};
use solid_data::{EdgeId, VertexId};

/// The numbers of new edges and of new vertices.
#[derive(Drop)]
pub(crate) struct Names {
    // Which edges of the trial are those of the solid, and which vertices.
    old_edges: Vec<bool>,
    old_vertices: Vec<bool>,
    // Of each edge of the trial.
    edge_numbers: Vec<u32>,
    vertex_numbers: Vec<u32>,
    /// The new edges of the trial, in their order.
    pub(crate) edges: Vec<u32>,
    pub(crate) vertices: Vec<u32>,
}

// Whether a vertex of a trial is one of the solid.
fn is_old_vertex(facts: &Facts, trial: &Trial, vertex: u32) -> bool {
    let own = trial.vertex(vertex);
    let kept = match own.kind {
        VertexKind::Own => true,
        VertexKind::Copied => facts.outer,
        VertexKind::Split => false,
    };
    kept && !facts.vertex(own.like).shared
}

fn old_vertices(memory: &mut Memory, facts: &Facts, trial: &Trial) -> Vec<bool> {
    let count = short(trial.vertices.len());
    let mut out = memory.unset(count);
    'vertices: for vertex in 0..count {
        set(&mut out, vertex, is_old_vertex(facts, trial, vertex));
    }
    out
}

fn is_end(trial: &Trial, old_vertices: &[bool], vertex: u32, old: u32) -> bool {
    is_set(old_vertices, vertex) && trial.vertex(vertex).like == old
}

// Whether an edge of a trial is one of the solid.
fn is_old_edge(facts: &Facts, trial: &Trial, old_vertices: &[bool], edge: u32) -> bool {
    let own = trial.edge(edge);
    let old = facts.edge(own.like);
    !own.split
        && is_end(trial, old_vertices, own.from, old.from)
        && is_end(trial, old_vertices, own.to, old.to)
}

fn old_edges(
    memory: &mut Memory,
    facts: &Facts,
    trial: &Trial,
    old_vertices: &[bool],
) -> Vec<bool> {
    let count = short(trial.edges.len());
    let mut out = memory.unset(count);
    'edges: for edge in 0..count {
        set(
            &mut out,
            edge,
            is_old_edge(facts, trial, old_vertices, edge),
        );
    }
    out
}

pub(crate) fn vertex_name(facts: &Facts, trial: &Trial, names: &Names, vertex: u32) -> VertexName {
    if is_set(&names.old_vertices, vertex) {
        return VertexName::Old(VertexId(facts.vertex(trial.vertex(vertex).like).number));
    }
    VertexName::New(at(&names.vertex_numbers, vertex))
}

pub(crate) fn edge_name(facts: &Facts, trial: &Trial, names: &Names, edge: u32) -> EdgeName {
    if is_set(&names.old_edges, edge) {
        return EdgeName::Old(EdgeId(facts.edge(trial.edge(edge).like).number));
    }
    EdgeName::New(at(&names.edge_numbers, edge))
}

fn name_vertex(memory: &mut Memory, names: &mut Names, vertex: u32) {
    if is_set(&names.old_vertices, vertex) || at(&names.vertex_numbers, vertex) != NONE {
        return;
    }
    let number = short(names.vertices.len());
    put(&mut names.vertex_numbers, vertex, number);
    memory.add(&mut names.vertices, vertex);
}

fn name_edge(memory: &mut Memory, trial: &Trial, names: &mut Names, edge: u32) {
    if is_set(&names.old_edges, edge) || at(&names.edge_numbers, edge) != NONE {
        return;
    }
    let number = short(names.edges.len());
    put(&mut names.edge_numbers, edge, number);
    memory.add(&mut names.edges, edge);
    let own = trial.edge(edge);
    name_vertex(memory, names, own.from);
    name_vertex(memory, names, own.to)
}

fn no_names(memory: &mut Memory, facts: &Facts, trial: &Trial) -> Names {
    let old_vertices = old_vertices(memory, facts, trial);
    let old_edges = old_edges(memory, facts, trial, &old_vertices);
    Names {
        old_edges,
        old_vertices,
        edge_numbers: memory.filled(short(trial.edges.len()), NONE),
        vertex_numbers: memory.filled(short(trial.vertices.len()), NONE),
        edges: memory.list(),
        vertices: memory.list(),
    }
}

/// Numbers new edges and new vertices as the uses of the faces that are kept first name them.
pub(crate) fn names_of(memory: &mut Memory, facts: &Facts, trial: &Trial) -> Names {
    let mut names = no_names(memory, facts, trial);
    'uses: for i in 0..trial.uses.len() {
        let i = short(i);
        let item = trial.item(i);
        if at(&trial.pieces, at(&facts.face_of, i)) != NONE {
            if item.on_edge {
                name_edge(memory, trial, &mut names, item.item);
            } else {
                name_vertex(memory, &mut names, item.item);
            }
        }
    }
    names
}
