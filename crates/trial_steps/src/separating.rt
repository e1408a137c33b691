//! Edges and vertices of each body's own.

use shell_trial::{
    FaceFact, Facts, LoopFact, Memory, NONE, Trial, TrialEdge, TrialUse, TrialVertex, VertexKind,
    at, item_at, put, short,
};

// What a body in turn has of each vertex and of each edge.
#[derive(Drop)]
struct Owned {
    // The edges as they were.
    edges: Vec<TrialEdge>,
    // Of each body its first face, and of each face the next one of its body.
    first_face: Vec<u32>,
    next_face: Vec<u32>,
    // Of each vertex the last body that has it; `NONE` for none.
    vertex_piece: Vec<u32>,
    vertex_now: Vec<u32>,
    edge_piece: Vec<u32>,
    edge_now: Vec<u32>,
}

const NO_EDGE: TrialEdge = TrialEdge {
    like: NONE,
    from: NONE,
    to: NONE,
    split: false,
};

// What a body has of a vertex.
fn own_vertex(
    memory: &mut Memory,
    trial: &mut Trial,
    owned: &mut Owned,
    piece: u32,
    vertex: u32,
) -> u32 {
    let last = at(&owned.vertex_piece, vertex);
    if last == piece {
        return at(&owned.vertex_now, vertex);
    }
    put(&mut owned.vertex_piece, vertex, piece);
    let now = if last == NONE {
        vertex
    } else {
        let like = trial.vertex(vertex).like;
        trial.add_vertex(
            memory,
            TrialVertex {
                like,
                kind: VertexKind::Copied,
            },
        )
    };
    put(&mut owned.vertex_now, vertex, now);
    now
}

// What a body has of an edge.
fn own_edge(
    memory: &mut Memory,
    trial: &mut Trial,
    owned: &mut Owned,
    piece: u32,
    edge: u32,
) -> u32 {
    let last = at(&owned.edge_piece, edge);
    if last == piece {
        return at(&owned.edge_now, edge);
    }
    put(&mut owned.edge_piece, edge, piece);
    let was = item_at(&owned.edges, edge, NO_EDGE);
    let from = own_vertex(memory, trial, owned, piece, was.from);
    let to = own_vertex(memory, trial, owned, piece, was.to);
    let own = TrialEdge { from, to, ..was };
    let now = if last == NONE {
        trial.put_edge(edge, own);
        edge
    } else {
        trial.add_edge(memory, own)
    };
    put(&mut owned.edge_now, edge, now);
    now
}

fn separate_loop(
    memory: &mut Memory,
    trial: &mut Trial,
    owned: &mut Owned,
    piece: u32,
    walk: LoopFact,
) {
    'uses: for t in 0..walk.uses {
        let here = walk.first_use.saturating_add(t);
        let was = trial.item(here);
        let item = if was.on_edge {
            own_edge(memory, trial, owned, piece, was.item)
        } else {
            own_vertex(memory, trial, owned, piece, was.item)
        };
        trial.put_use(here, TrialUse { item, ..was });
    }
}

fn separate_face(
    memory: &mut Memory,
    facts: &Facts,
    trial: &mut Trial,
    owned: &mut Owned,
    piece: u32,
    face: FaceFact,
) {
    'loops: for i in 0..face.loops {
        let walk = facts.walk(face.first_loop.saturating_add(i));
        separate_loop(memory, trial, owned, piece, walk);
    }
}

// Of each piece its first face, and of each face the next one of its piece.
fn chains(memory: &mut Memory, trial: &Trial) -> (Vec<u32>, Vec<u32>) {
    let faces = short(trial.pieces.len());
    let mut first = memory.filled(trial.piece_count, NONE);
    let mut next = memory.filled(faces, NONE);
    'faces: for i in 0..faces {
        let face = faces - 1 - i;
        let piece = at(&trial.pieces, face);
        if piece != NONE {
            put(&mut next, face, at(&first, piece));
            put(&mut first, piece, face);
        }
    }
    (first, next)
}

fn separate_piece(
    memory: &mut Memory,
    facts: &Facts,
    trial: &mut Trial,
    owned: &mut Owned,
    piece: u32,
) {
    let mut face = at(&owned.first_face, piece);
    'faces: for _ in 0..facts.faces.len() {
        if face == NONE {
            break 'faces;
        }
        separate_face(memory, facts, trial, owned, piece, facts.face(face));
        face = at(&owned.next_face, face);
    }
}

/// Gives each body edges and vertices of its own where an earlier body has them, too.
pub fn separate(memory: &mut Memory, facts: &Facts, trial: &mut Trial) {
    let vertices = short(trial.vertices.len());
    let edges = short(trial.edges.len());
    let (first_face, next_face) = chains(memory, trial);
    let mut owned = Owned {
        edges: memory.copied(&trial.edges),
        first_face,
        next_face,
        vertex_piece: memory.filled(vertices, NONE),
        vertex_now: memory.filled(vertices, NONE),
        edge_piece: memory.filled(edges, NONE),
        edge_now: memory.filled(edges, NONE),
    };
    'pieces: for piece in 0..trial.piece_count {
        separate_piece(memory, facts, trial, &mut owned, piece);
    }
}
