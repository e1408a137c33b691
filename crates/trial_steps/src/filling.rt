//! The rims on which faces close a shell.

use crate::fans::Fans;
use shell_trial::{
    Facts, Key, Memory, NONE, Rim, RimRow, Table, Trial, at, is_set, key_of, more, put, set, short,
    start_of,
};

/// Whether each edge has one row, or two that are mates, and there is no gap.
pub fn is_whole(table: &Table) -> bool {
    table.gaps.is_empty() && !table.same_way && !table.crowded
}

// Of each row the one that it follows.
fn before_each(memory: &mut Memory, table: &Table) -> Vec<u32> {
    let count = short(table.rows.len());
    let mut out = memory.filled(count, NONE);
    'rows: for i in 0..count {
        let row = table.row(i);
        if row.edge != NONE {
            put(&mut out, row.next, i);
        }
    }
    out
}

// From the last row of each path of turns to the row before the first one of the next path at the vertex.
fn links(memory: &mut Memory, trial: &Trial, table: &Table, fans: &Fans) -> Vec<u32> {
    let vertices = short(trial.vertices.len());
    let before = before_each(memory, table);
    let mut out = memory.filled(short(table.rows.len()), NONE);
    let mut firsts = memory.filled(vertices, NONE);
    let mut lasts = memory.filled(vertices, NONE);
    'paths: for i in 0..fans.paths.len() {
        let path = fans.paths[i];
        let vertex = start_of(trial, table.row(path.first));
        let last = at(&lasts, vertex);
        if last == NONE {
            put(&mut firsts, vertex, path.first);
        } else {
            put(&mut out, last, at(&before, path.first));
        }
        put(&mut lasts, vertex, path.last);
    }
    'rings: for vertex in 0..vertices {
        let first = at(&firsts, vertex);
        if first != NONE {
            put(&mut out, at(&lasts, vertex), at(&before, first));
        }
    }
    out
}

// The ring of links from a row on, as a rim; which rows are in one.
fn add_rim(
    memory: &mut Memory,
    trial: &mut Trial,
    table: &Table,
    links: &[u32],
    first: u32,
    marked: &mut [bool],
) -> Rim {
    let begin = short(trial.rim_rows.len());
    let mut i = first;
    'ring: for _ in 0..links.len() {
        if i == NONE || is_set(marked, i) {
            break 'ring;
        }
        set(marked, i, true);
        let row = table.row(i);
        memory.add(
            &mut trial.rim_rows,
            RimRow {
                edge: row.edge,
                along: !row.along,
            },
        );
        i = at(links, i);
    }
    let count = short(trial.rim_rows.len()).saturating_sub(begin);
    Rim {
        piece: NONE,
        first: begin,
        count,
    }
}

fn add_rims(memory: &mut Memory, facts: &Facts, trial: &mut Trial, table: &Table, links: &[u32]) {
    let mut marked = memory.unset(short(table.rows.len()));
    'rows: for i in 0..table.rows.len() {
        let i = short(i);
        if table.is_free(i) && !is_set(&marked, i) {
            let piece = at(&trial.pieces, at(&facts.face_of, i));
            let rim = add_rim(memory, trial, table, links, i, &mut marked);
            memory.add(&mut trial.rims, Rim { piece, ..rim });
        }
    }
}

// Puts the rims in the order of their pieces.
fn order_rims(memory: &mut Memory, trial: &mut Trial) {
    let mut keys: Vec<Key> = memory.room(trial.rims.len());
    'keys: for i in 0..trial.rims.len() {
        memory.add(&mut keys, key_of(trial.rims[i].piece, short(i), short(i)));
    }
    memory.sort(&mut keys);
    let mut rims = memory.room(keys.len());
    'rims: for i in 0..keys.len() {
        let place = keys[i].place as usize;
        if place < trial.rims.len() {
            memory.add(&mut rims, trial.rims[place]);
        }
    }
    trial.rims = rims;
}

// What rims cost: of each body that has some 2 and 1 each, and 4 more if it has one face and one rim and isn't the only one.
fn pay_rims(memory: &mut Memory, trial: &mut Trial) {
    let mut rims = memory.filled(trial.piece_count, 0);
    let mut faces = memory.filled(trial.piece_count, 0);
    'rims: for i in 0..trial.rims.len() {
        more(&mut rims, trial.rims[i].piece);
    }
    'faces: for i in 0..trial.pieces.len() {
        more(&mut faces, trial.pieces[i]);
    }
    let many = trial.piece_count > 1;
    'pieces: for piece in 0..trial.piece_count {
        let count = at(&rims, piece);
        if count > 0 {
            trial.pay(count.saturating_add(2));
            if many && count == 1 && at(&faces, piece) == 1 {
                trial.pay(4);
            }
        }
    }
}

/// Puts a face on each rim of a whole shell, so that each edge has two rows. The vertices may have been split since the rows were
/// listed: that changes none of them.
pub fn fill(memory: &mut Memory, facts: &Facts, trial: &mut Trial, table: &Table, fans: &Fans) {
    if fans.paths.is_empty() {
        return;
    }
    let links = links(memory, trial, table, fans);
    add_rims(memory, facts, trial, table, &links);
    trial.sure = false;
    order_rims(memory, trial);
    pay_rims(memory, trial);
}
