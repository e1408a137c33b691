//! What is known of a shell, with the classes of its edges.

use crate::cells::{NONE, item_at, short};
use crate::classes::{Key, classes_of};
use crate::facts::{EdgeFact, Facts};
use crate::memory::Memory;
use crate::reading::{Numbers, Read, read_edges, read_faces, read_vertices};
use edge_uses::Rows;
use shell_change::{CurveKnown, Known};
use solid_data::{ShellAt, Solid};

fn sure_key(edge: EdgeFact, place: u32) -> Key {
    let apart = edge.from_place != edge.to_place;
    if apart && edge.is_line {
        return Key {
            first: 0,
            second: edge.from_place.min(edge.to_place),
            third: edge.from_place.max(edge.to_place),
            fourth: 0,
            place,
        };
    }
    Key {
        first: 1,
        second: edge.from_place,
        third: edge.to_place,
        fourth: edge.record,
        place,
    }
}

fn ends_key(edge: EdgeFact, place: u32) -> Key {
    Key {
        first: edge.from_place.min(edge.to_place),
        second: edge.from_place.max(edge.to_place),
        third: 0,
        fourth: 0,
        place,
    }
}

fn curve_key(curve: CurveKnown, place: u32) -> Key {
    let (first, second) = match curve.line {
        Some(line) => (0, line),
        None => (1, curve.record),
    };
    Key {
        first,
        second,
        third: 0,
        fourth: 0,
        place,
    }
}

fn sure_classes(memory: &mut Memory, edges: &[EdgeFact]) -> Vec<u32> {
    let mut keys = memory.room(edges.len());
    'edges: for i in 0..edges.len() {
        memory.add(&mut keys, sure_key(edges[i], short(i)));
    }
    classes_of(memory, keys, short(edges.len()))
}

fn ends_classes(memory: &mut Memory, edges: &[EdgeFact]) -> Vec<u32> {
    let mut keys = memory.room(edges.len());
    'edges: for i in 0..edges.len() {
        memory.add(&mut keys, ends_key(edges[i], short(i)));
    }
    classes_of(memory, keys, short(edges.len()))
}

const NO_CURVE: CurveKnown = CurveKnown {
    record: NONE,
    line: None,
};

fn curve_classes(memory: &mut Memory, known: &Known, edges: &[EdgeFact]) -> Vec<u32> {
    let curves = known.geometry.curves.as_slice();
    let mut keys = memory.room(edges.len());
    'edges: for i in 0..edges.len() {
        let curve = item_at(curves, edges[i].number, NO_CURVE);
        memory.add(&mut keys, curve_key(curve, short(i)));
    }
    classes_of(memory, keys, short(edges.len()))
}

// How many faces the shells before a shell have.
fn faces_before(solid: &Solid, shell: ShellAt) -> u32 {
    let mut count = 0u32;
    'shells: for k in 0..shell.0 {
        let faces = match solid.shell(ShellAt(k)) {
            Some(shell) => shell.faces.len(),
            None => 0,
        };
        count = count.saturating_add(short(faces));
    }
    count
}

fn facts_with(
    memory: &mut Memory,
    solid: &Solid,
    known: &Known,
    numbers: Numbers<'_>,
    read: Read,
    below: usize,
) -> Facts {
    let edges = read_edges(memory, solid, known, numbers);
    let vertices = read_vertices(memory, known, numbers.vertices, below);
    let sure = sure_classes(memory, edges.as_slice());
    let ends = ends_classes(memory, edges.as_slice());
    let curves = curve_classes(memory, known, edges.as_slice());
    Facts {
        flag: true,
        outer: true,
        faces: read.faces,
        loops: read.loops,
        uses: read.uses,
        loop_of: read.loop_of,
        face_of: read.face_of,
        edges,
        vertices,
        sure,
        ends,
        curves,
    }
}

/// What is known of a shell, of which these are the rows; None if the solid hasn't got it. The vertices of earlier shells lie below
/// a number.
pub fn facts_of(
    memory: &mut Memory,
    solid: &Solid,
    known: &Known,
    shell: ShellAt,
    rows: &Rows,
    below: usize,
) -> Option<Facts> {
    if shell.0 as usize >= solid.shell_count() {
        return None;
    }
    let first = faces_before(solid, shell);
    let numbers = Numbers {
        edges: rows.edge_slice(),
        vertices: rows.vertex_slice(),
        uses: rows.len(),
    };
    let Some(own) = solid.shell(shell) else {
        return None;
    };
    let read = read_faces(memory, known, numbers, own, first);
    let mut facts = facts_with(memory, solid, known, numbers, read, below);
    facts.flag = own.flag;
    facts.outer = shell.0 == 0;
    Some(facts)
}
