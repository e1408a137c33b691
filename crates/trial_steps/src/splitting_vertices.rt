//! Splitting vertices where several fans meet.

use crate::fans::Fans;
use shell_trial::{
    Facts, LoopFact, Memory, NONE, Table, Trial, TrialEdge, TrialUse, TrialVertex, VertexKind, at,
    is_set, set, short, start_of,
};

// Which vertices have a fan that keeps them, and which bodies had one split.
#[derive(Drop)]
struct Splits {
    kept: Vec<bool>,
    pieces: Vec<bool>,
    count: u32,
}

fn new_vertex(memory: &mut Memory, trial: &mut Trial, vertex: u32) -> u32 {
    let like = trial.vertex(vertex).like;
    trial.add_vertex(
        memory,
        TrialVertex {
            like,
            kind: VertexKind::Split,
        },
    )
}

fn note(splits: &mut Splits, piece: u32) {
    if !is_set(&splits.pieces, piece) {
        set(&mut splits.pieces, piece, true);
        splits.count = splits.count.saturating_add(1);
    }
}

// The rows of a cycle start at another vertex now.
fn move_cycle(trial: &mut Trial, table: &Table, turns: &[u32], first: u32, vertex: u32) {
    let mut i = first;
    'turns: for _ in 0..turns.len() {
        let row = table.row(i);
        let edge = trial.edge(row.edge);
        let now = if row.along {
            TrialEdge {
                from: vertex,
                ..edge
            }
        } else {
            TrialEdge { to: vertex, ..edge }
        };
        trial.put_edge(row.edge, now);
        i = at(turns, i);
        if i == first || i == NONE {
            break 'turns;
        }
    }
}

fn split_cycles(
    memory: &mut Memory,
    facts: &Facts,
    trial: &mut Trial,
    table: &Table,
    fans: &Fans,
    splits: &mut Splits,
) {
    'cycles: for i in 0..fans.cycles.len() {
        let first = fans.cycles[i];
        let vertex = start_of(trial, table.row(first));
        if is_set(&splits.kept, vertex) {
            let new = new_vertex(memory, trial, vertex);
            move_cycle(trial, table, &fans.turns, first, new);
            note(splits, at(&trial.pieces, at(&facts.face_of, first)));
        } else {
            set(&mut splits.kept, vertex, true);
        }
    }
}

fn has_edges(trial: &Trial, walk: LoopFact) -> bool {
    'uses: for t in 0..walk.uses {
        if trial.item(walk.first_use.saturating_add(t)).on_edge {
            return true;
        }
    }
    false
}

// Where a loop ends by its last use of an edge; `NONE` where it has no edge.
fn last_end(trial: &Trial, walk: LoopFact) -> u32 {
    let mut last = NONE;
    'uses: for t in 0..walk.uses {
        let item = trial.item(walk.first_use.saturating_add(t));
        if item.on_edge {
            let edge = trial.edge(item.item);
            last = if item.along { edge.to } else { edge.from };
        }
    }
    last
}

fn move_point(trial: &mut Trial, walk: LoopFact, vertex: u32) {
    'uses: for t in 0..walk.uses {
        let here = walk.first_use.saturating_add(t);
        let was = trial.item(here);
        trial.put_use(
            here,
            TrialUse {
                item: vertex,
                ..was
            },
        );
    }
}

fn split_points(memory: &mut Memory, facts: &Facts, trial: &mut Trial, splits: &mut Splits) {
    'loops: for i in 0..facts.loops.len() {
        let walk = facts.walk(short(i));
        let piece = at(&trial.pieces, walk.face);
        if piece != NONE && walk.uses > 0 && !has_edges(trial, walk) {
            let vertex = trial.item(walk.first_use).item;
            if is_set(&splits.kept, vertex) {
                let new = new_vertex(memory, trial, vertex);
                move_point(trial, walk, new);
                note(splits, piece);
            } else {
                set(&mut splits.kept, vertex, true);
            }
        }
    }
}

fn has_points(trial: &Trial, walk: LoopFact) -> bool {
    'uses: for t in 0..walk.uses {
        if !trial.item(walk.first_use.saturating_add(t)).on_edge {
            return true;
        }
    }
    false
}

// Uses of vertices go with the edge uses before them.
fn follow_edges(trial: &mut Trial, walk: LoopFact) {
    if !has_points(trial, walk) {
        return;
    }
    let mut last = last_end(trial, walk);
    'uses: for t in 0..walk.uses {
        let here = walk.first_use.saturating_add(t);
        let was = trial.item(here);
        if was.on_edge {
            let edge = trial.edge(was.item);
            last = if was.along { edge.to } else { edge.from };
        } else if last != NONE {
            trial.put_use(here, TrialUse { item: last, ..was });
        }
    }
}

fn follow_all(facts: &Facts, trial: &mut Trial) {
    'loops: for i in 0..facts.loops.len() {
        let walk = facts.walk(short(i));
        if at(&trial.pieces, walk.face) != NONE {
            follow_edges(trial, walk);
        }
    }
}

/// Splits the vertices of a whole shell where several fans of a body meet: each cycle of turns and each loop without an edge gets a
/// new one, but the first where there is no path.
pub fn split_vertices(
    memory: &mut Memory,
    facts: &Facts,
    trial: &mut Trial,
    table: &Table,
    fans: &Fans,
) {
    let mut splits = Splits {
        kept: memory.unset(short(trial.vertices.len())),
        pieces: memory.unset(trial.piece_count),
        count: 0,
    };
    'paths: for i in 0..fans.paths.len() {
        let vertex = start_of(trial, table.row(fans.paths[i].first));
        set(&mut splits.kept, vertex, true);
    }
    split_cycles(memory, facts, trial, table, fans, &mut splits);
    split_points(memory, facts, trial, &mut splits);
    if splits.count > 0 {
        follow_all(facts, trial);
        trial.pay(splits.count.saturating_mul(2));
    }
}
