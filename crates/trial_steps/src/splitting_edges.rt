//! Splitting crowded edges.

use crate::parting::{By, sets_of};
use shell_trial::{
    Facts, Key, Memory, NONE, Sets, Table, Trial, TrialEdge, TrialUse, at, item_at, short,
};

const NO_KEY: Key = Key {
    first: NONE,
    second: NONE,
    third: NONE,
    fourth: NONE,
    place: NONE,
};

// The rows of edges with four rows or more: by edge, those along before those against, by patch, by number.
fn crowded_rows(memory: &mut Memory, facts: &Facts, table: &Table, patches: &mut Sets) -> Vec<Key> {
    let mut out = memory.list();
    'rows: for i in 0..table.rows.len() {
        let i = short(i);
        let row = table.row(i);
        if row.edge != NONE && table.rows_on(row.edge) >= 4 {
            memory.add(
                &mut out,
                Key {
                    first: row.edge,
                    second: u32::from(!row.along),
                    third: patches.find(at(&facts.face_of, i)).least,
                    fourth: i,
                    place: i,
                },
            );
        }
    }
    memory.sort(&mut out);
    out
}

// How many rows of an edge run along it.
fn along_of(table: &Table, edge: u32) -> u32 {
    let mut i = at(&table.first, edge);
    let mut along = 0u32;
    'rows: for _ in 0..table.rows_on(edge) {
        let row = table.row(i);
        if row.along {
            along = along.saturating_add(1);
        }
        i = row.same;
    }
    along
}

/// Whether there are edges with four rows or more, and each has as many rows along as against.
pub fn can_split_edges(table: &Table) -> bool {
    let mut some = false;
    'edges: for edge in 0..short(table.count.len()) {
        let count = table.rows_on(edge);
        if count >= 4 {
            let half = along_of(table, edge);
            if half.saturating_add(half) != count {
                return false;
            }
            some = true;
        }
    }
    some
}

fn use_edge(trial: &mut Trial, i: u32, edge: u32) {
    let was = trial.item(i);
    trial.put_use(i, TrialUse { item: edge, ..was });
}

// Pairs the rows of each edge, those against a number of places further on; all pairs but the first get a new edge.
fn pair_rows(memory: &mut Memory, trial: &mut Trial, table: &Table, rows: &[Key], further: u32) {
    let mut begin = 0u32;
    'rows: for i in 0..rows.len() {
        let i = short(i);
        let key = item_at(rows, i, NO_KEY);
        if item_at(rows, begin, NO_KEY).first != key.first {
            begin = i;
        }
        let half = table.rows_on(key.first) / 2;
        let place = i.saturating_sub(begin);
        if place > 0 && place < half {
            let sum = place.saturating_add(further);
            let turned = if sum >= half { sum - half } else { sum };
            let other = begin.saturating_add(half).saturating_add(turned);
            let old = trial.edge(key.first);
            let new = trial.add_edge(memory, TrialEdge { split: true, ..old });
            use_edge(trial, key.place, new);
            use_edge(trial, item_at(rows, other, NO_KEY).place, new);
        }
    }
}

/// The rows of edges with four rows or more, in the order in which they are paired.
pub fn rows_to_split(memory: &mut Memory, facts: &Facts, table: &Table) -> Vec<Key> {
    let mut patches = sets_of(memory, facts, table, By::Pairs);
    crowded_rows(memory, facts, table, &mut patches)
}

/// Splits each edge with four rows or more into edges with two; these are their rows. That can be where each has as many rows along
/// as against.
pub fn split_edges(
    memory: &mut Memory,
    trial: &mut Trial,
    table: &Table,
    rows: &[Key],
    further: u32,
) {
    pair_rows(memory, trial, table, rows, further);
    trial.pay(4);
    trial.split = further.saturating_add(1);
}
