//! A shell read into flat lists.

use crate::cells::{NONE, item_at, short};
use crate::facts::{EdgeFact, FaceFact, LoopFact, VertexFact};
use crate::memory::Memory;
use crate::trial::TrialUse;
use shell_change::{ArcKnown, CurveKnown, Known};
use solid_data::{EdgeId, FaceUse, Loop, LoopUse, Shell, Solid};

/// The lists that the faces of a shell make.
#[derive(Drop)]
pub struct Read {
    pub faces: Vec<FaceFact>,
    pub loops: Vec<LoopFact>,
    pub uses: Vec<TrialUse>,
    pub loop_of: Vec<u32>,
    pub face_of: Vec<u32>,
}

/// Where the edges and the vertices of a shell stand among its own.
#[derive(Clone, Copy)]
pub struct Numbers<'a> {
    pub edges: &'a [u32],
    pub vertices: &'a [u32],
    /// How many uses of edges there are.
    pub uses: usize,
}

/// The place of a number in a list that rises; `NONE` where it isn't there.
pub fn rank(numbers: &[u32], n: u32) -> u32 {
    // Most shells have numbers without a break.
    let near = n.saturating_sub(item_at(numbers, 0, NONE));
    if item_at(numbers, near, NONE) == n {
        return near;
    }
    match numbers.binary_search(&n) {
        Ok(i) => short(i),
        Err(_) => NONE,
    }
}

fn use_of(numbers: Numbers<'_>, item: LoopUse) -> TrialUse {
    match item {
        LoopUse::EdgeUse { edge, along } => TrialUse {
            on_edge: true,
            item: rank(numbers.edges, edge.0),
            along,
        },
        LoopUse::VertexUse { vertex } => TrialUse {
            on_edge: false,
            item: rank(numbers.vertices, vertex.0),
            along: true,
        },
    }
}

fn read_loop(memory: &mut Memory, read: &mut Read, numbers: Numbers<'_>, walk: &Loop, face: u32) {
    let uses = walk.uses.as_slice();
    let number = short(read.loops.len());
    memory.add(
        &mut read.loops,
        LoopFact {
            face,
            first_use: short(read.uses.len()),
            uses: short(uses.len()),
        },
    );
    'uses: for i in 0..uses.len() {
        memory.add(&mut read.uses, use_of(numbers, uses[i]));
        memory.add(&mut read.loop_of, number);
        memory.add(&mut read.face_of, face);
    }
}

fn read_face(
    memory: &mut Memory,
    read: &mut Read,
    numbers: Numbers<'_>,
    face: &FaceUse,
    surface: u32,
) {
    let loops = face.loops.as_slice();
    let number = short(read.faces.len());
    memory.add(
        &mut read.faces,
        FaceFact {
            flag: face.flag,
            surface,
            first_loop: short(read.loops.len()),
            loops: short(loops.len()),
        },
    );
    'loops: for i in 0..loops.len() {
        read_loop(memory, read, numbers, &loops[i], number);
    }
}

/// The faces of a shell; the first one's surface is at this place of the known ones.
pub fn read_faces(
    memory: &mut Memory,
    known: &Known,
    numbers: Numbers<'_>,
    shell: &Shell,
    first: u32,
) -> Read {
    let faces = shell.faces.as_slice();
    let mut read = Read {
        faces: memory.room(faces.len()),
        loops: memory.room(faces.len()),
        uses: memory.room(numbers.uses),
        loop_of: memory.room(numbers.uses),
        face_of: memory.room(numbers.uses),
    };
    let surfaces = known.surfaces.as_slice();
    'faces: for i in 0..faces.len() {
        let surface = item_at(surfaces, first.saturating_add(short(i)), NONE);
        read_face(memory, &mut read, numbers, &faces[i], surface);
    }
    read
}

/// The vertices with these numbers; those of earlier shells lie below a number.
pub fn read_vertices(
    memory: &mut Memory,
    known: &Known,
    numbers: &[u32],
    below: usize,
) -> Vec<VertexFact> {
    let places = known.geometry.places.as_slice();
    let mut out = memory.room(numbers.len());
    'vertices: for i in 0..numbers.len() {
        let number = numbers[i];
        memory.add(
            &mut out,
            VertexFact {
                number,
                place: item_at(places, number, NONE),
                shared: (number as usize) < below,
            },
        );
    }
    out
}

const NO_CURVE: CurveKnown = CurveKnown {
    record: NONE,
    line: None,
};

const NO_ARC: Option<ArcKnown> = None;

fn edge_fact(solid: &Solid, known: &Known, numbers: Numbers<'_>, number: u32) -> EdgeFact {
    let curve = item_at(known.geometry.curves.as_slice(), number, NO_CURVE);
    let arc = item_at(known.arcs.as_slice(), number, NO_ARC);
    let places = known.geometry.places.as_slice();
    let (from, to) = match solid.edge(EdgeId(number)) {
        Some(edge) => (edge.from.0, edge.to.0),
        None => (0, 0),
    };
    EdgeFact {
        number,
        from: rank(numbers.vertices, from),
        to: rank(numbers.vertices, to),
        from_place: item_at(places, from, NONE),
        to_place: item_at(places, to, NONE),
        record: curve.record,
        is_line: curve.line.is_some(),
        arc,
    }
}

/// The edges of a shell.
pub fn read_edges(
    memory: &mut Memory,
    solid: &Solid,
    known: &Known,
    numbers: Numbers<'_>,
) -> Vec<EdgeFact> {
    let mut out = memory.room(numbers.edges.len());
    'edges: for i in 0..numbers.edges.len() {
        memory.add(&mut out, edge_fact(solid, known, numbers, numbers.edges[i]));
    }
    out
}
