//! The change that a trial made.

use crate::moving::{Moves, are_too_many, move_of, no_moves};
use crate::naming::{edge_name, names_of, vertex_name};
use crate::seaming::Seams;
use crate::telling::loop_now;
use crate::views::Views;
use iges_base::ItemList;
use shell_change::{Change, FaceNow, Fate, NewEdge, NewVertex, Rim, RimEdge};
use shell_trial::{
    Facts, Memory, NONE, Rim as TrialRim, RimRow, Trial, at, is_set, item_at, short,
};
use solid_data::{EdgeId, ShellAt, VertexId};
use trial_seams::Sewn;

fn face_now(
    memory: &mut Memory,
    views: Views<'_>,
    moves: &mut Moves,
    number: u32,
    piece: u32,
) -> FaceNow {
    let face = views.facts.face(number);
    let mut loops = memory.items_room(face.loops as usize);
    'loops: for i in 0..face.loops {
        let at_loop = face.first_loop.saturating_add(i);
        let told = loop_now(memory, views, moves, at_loop);
        memory.add_item(&mut loops, told);
    }
    FaceNow {
        piece,
        flag: is_set(&views.trial.flags, number),
        loops,
    }
}

fn fate_of(memory: &mut Memory, views: Views<'_>, moves: &mut Moves, number: u32) -> Fate {
    let piece = at(&views.trial.pieces, number);
    if piece == NONE {
        return Fate::Removed;
    }
    let face = face_now(memory, views, moves, number, piece);
    Fate::Kept(face)
}

fn fates(memory: &mut Memory, views: Views<'_>, moves: &mut Moves) -> ItemList<Fate> {
    let mut out = memory.items_room(views.facts.faces.len());
    'faces: for i in 0..views.facts.faces.len() {
        if !are_too_many(views.facts, moves) {
            let fate = fate_of(memory, views, moves, short(i));
            memory.add_item(&mut out, fate);
        }
    }
    out
}

fn new_edge(memory: &mut Memory, views: Views<'_>, moves: &mut Moves, number: u32) -> NewEdge {
    let (facts, trial, names) = (views.facts, views.trial, views.names);
    let edge = trial.edge(number);
    let old = facts.edge(edge.like);
    let from_by = move_of(memory, views, moves, old.from);
    let to_by = move_of(memory, views, moves, old.to);
    NewEdge {
        like: EdgeId(old.number),
        from: vertex_name(facts, trial, names, edge.from),
        to: vertex_name(facts, trial, names, edge.to),
        from_by,
        to_by,
    }
}

fn new_edges(memory: &mut Memory, views: Views<'_>, moves: &mut Moves) -> ItemList<NewEdge> {
    let mut out = memory.items_room(views.names.edges.len());
    'edges: for i in 0..views.names.edges.len() {
        let edge = new_edge(memory, views, moves, views.names.edges[i]);
        memory.add_item(&mut out, edge);
    }
    out
}

fn new_vertices(memory: &mut Memory, views: Views<'_>) -> ItemList<NewVertex> {
    let mut out = memory.items_room(views.names.vertices.len());
    'vertices: for i in 0..views.names.vertices.len() {
        let vertex = views.trial.vertex(views.names.vertices[i]);
        memory.add_item(
            &mut out,
            NewVertex {
                like: VertexId(views.facts.vertex(vertex.like).number),
            },
        );
    }
    out
}

const NO_ROW: RimRow = RimRow {
    edge: NONE,
    along: false,
};

fn rim_now(memory: &mut Memory, views: Views<'_>, rim: TrialRim) -> Rim {
    let mut edges = memory.items_room(rim.count as usize);
    'edges: for i in 0..rim.count {
        let row = item_at(&views.trial.rim_rows, rim.first.saturating_add(i), NO_ROW);
        memory.add_item(
            &mut edges,
            RimEdge {
                edge: edge_name(views.facts, views.trial, views.names, row.edge),
                along: row.along,
            },
        );
    }
    Rim {
        piece: rim.piece,
        edges,
    }
}

fn rims(memory: &mut Memory, views: Views<'_>) -> ItemList<Rim> {
    let mut out = memory.items_room(views.trial.rims.len());
    'rims: for i in 0..views.trial.rims.len() {
        let rim = rim_now(memory, views, views.trial.rims[i]);
        memory.add_item(&mut out, rim);
    }
    out
}

// The change, and whether it has few enough moves.
fn changed(
    memory: &mut Memory,
    facts: &Facts,
    sewn: &Sewn,
    trial: &Trial,
    seams: Seams,
    shell: ShellAt,
) -> (Change, bool) {
    let names = names_of(memory, facts, trial);
    let mut moves = no_moves(memory, facts, sewn);
    let views = Views {
        facts,
        trial,
        sewn,
        names: &names,
        seams: &seams,
    };
    let faces = fates(memory, views, &mut moves);
    let edges = new_edges(memory, views, &mut moves);
    let vertices = new_vertices(memory, views);
    let rims = rims(memory, views);
    let few = !are_too_many(facts, &moves);
    let change = Change {
        shell,
        faces,
        vertices,
        edges,
        seams: seams.list,
        moves: moves.list,
        rims,
    };
    (change, few)
}

/// The change that a trial made of a shell, with these seams; None if it would have too many moves.
pub fn change_of(
    memory: &mut Memory,
    facts: &Facts,
    sewn: &Sewn,
    trial: &Trial,
    seams: Seams,
    shell: ShellAt,
) -> Option<Change> {
    let (change, few) = changed(memory, facts, sewn, trial, seams, shell);
    if few { Some(change) } else { None }
}
