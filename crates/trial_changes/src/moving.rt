//! The moves of a change: on which way a vertex has come to another place.

use crate::views::Views;
use iges_base::ItemList;
use shell_change::Move;
use shell_trial::{Facts, Memory, NONE, at, put, short};
use trial_seams::Sewn;

// A shell has at most so many moves for each vertex.
const MOVES_EACH: u32 = 8;

/// The moves that were needed so far.
#[derive(Drop)]
pub(crate) struct Moves {
    pub(crate) list: ItemList<Move>,
    // Of each vertex of the shell the last move of its way; `NONE` if there is none yet.
    last: Vec<u32>,
    // Whether some vertices became one.
    any: bool,
    // Of each vertex one further on its way, without another place between; itself, where the next one has another place.
    further: Vec<u32>,
}

fn one_further(facts: &Facts, sewn: &Sewn, vertex: u32) -> u32 {
    let next = at(&sewn.before, vertex);
    if next != NONE && facts.vertex(next).place == facts.vertex(vertex).place {
        next
    } else {
        vertex
    }
}

pub(crate) fn no_moves(memory: &mut Memory, facts: &Facts, sewn: &Sewn) -> Moves {
    let count = short(facts.vertices.len());
    let mut further = memory.filled(count, NONE);
    'vertices: for vertex in 0..count {
        put(&mut further, vertex, one_further(facts, sewn, vertex));
    }
    Moves {
        list: memory.items(),
        last: memory.filled(count, NONE),
        any: !sewn.links.is_empty(),
        further,
    }
}

pub(crate) fn are_too_many(facts: &Facts, moves: &Moves) -> bool {
    short(moves.list.len()) > short(facts.vertices.len()).saturating_mul(MOVES_EACH)
}

// The last vertex on the way from one that has its place without another place between.
fn before_next_place(moves: &mut Moves, vertex: u32) -> u32 {
    let mut here = vertex;
    'steps: for _ in 0..moves.further.len() {
        let next = at(&moves.further, here);
        if next == here || next == NONE {
            break 'steps;
        }
        // The way is halved as it is gone.
        let after = at(&moves.further, next);
        put(&mut moves.further, here, after);
        here = after;
    }
    here
}

// One step back from a vertex to another place.
fn step(
    memory: &mut Memory,
    views: Views<'_>,
    moves: &mut Moves,
    vertex: u32,
    here: u32,
    next: u32,
) {
    let link = views.sewn.link(at(&views.sewn.by, here));
    let after = at(&moves.last, vertex);
    let number = short(moves.list.len());
    let step = Move {
        from: views.facts.vertex(vertex).place,
        to: views.facts.vertex(next).place,
        seam: at(&views.seams.numbers, link.edge),
        at_end: link.at_end,
        back: here != link.left,
        after: if after == NONE { None } else { Some(after) },
    };
    memory.add_item(&mut moves.list, step);
    put(&mut moves.last, vertex, number);
}

fn walk_back(memory: &mut Memory, views: Views<'_>, moves: &mut Moves, vertex: u32) {
    let mut next = vertex;
    'steps: for _ in 0..views.sewn.before.len() {
        let here = before_next_place(moves, next);
        next = at(&views.sewn.before, here);
        if next == NONE || are_too_many(views.facts, moves) {
            break 'steps;
        }
        step(memory, views, moves, vertex, here, next);
    }
}

/// By which move a vertex of the shell has moved; None where it has the place that it had.
pub(crate) fn move_of(
    memory: &mut Memory,
    views: Views<'_>,
    moves: &mut Moves,
    vertex: u32,
) -> Option<u32> {
    if !moves.any {
        return None;
    }
    let least = at(&views.sewn.least, vertex);
    if least == vertex || views.facts.vertex(vertex).place == views.facts.vertex(least).place {
        return None;
    }
    if at(&moves.last, vertex) == NONE {
        walk_back(memory, views, moves, vertex);
    }
    Some(at(&moves.last, vertex))
}
