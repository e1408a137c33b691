//! The cycles and the paths of turns among the rows of a trial.

use shell_trial::{Memory, NONE, Table, at, is_set, put, set, short};

/// A path of turns.
#[derive(Clone, Copy)]
pub struct Path {
    pub first: u32,
    pub last: u32,
}

/// The paths and the cycles of turns, each by their first rows.
#[derive(Drop)]
pub struct Fans {
    pub paths: Vec<Path>,
    /// The first row of each cycle.
    pub cycles: Vec<u32>,
    /// The turn of each row, which is what follows its mate; `NONE` where it has none.
    pub turns: Vec<u32>,
}

fn turns_of(memory: &mut Memory, table: &Table) -> Vec<u32> {
    let mut turns = memory.filled(short(table.rows.len()), NONE);
    'edges: for edge in 0..short(table.count.len()) {
        if table.rows_on(edge) == 2 {
            let first = at(&table.first, edge);
            let row = table.row(first);
            let other = table.row(row.same);
            if row.along != other.along {
                put(&mut turns, first, other.next);
                put(&mut turns, row.same, row.next);
            }
        }
    }
    turns
}

// Which rows are turns of others.
fn turned_to(memory: &mut Memory, turns: &[u32]) -> Vec<bool> {
    let mut out = memory.unset(short(turns.len()));
    'rows: for i in 0..turns.len() {
        set(&mut out, turns[i], true);
    }
    out
}

// Marks the rows from one on, turn by turn, up to one without a turn or one that is marked; the last of them.
fn follow(turns: &[u32], first: u32, marked: &mut [bool]) -> u32 {
    let mut last = first;
    let mut row = first;
    'turns: for _ in 0..turns.len() {
        if row == NONE || is_set(marked, row) {
            break 'turns;
        }
        set(marked, row, true);
        last = row;
        row = at(turns, row);
    }
    last
}

// Whether each edge has two rows that are mates.
fn is_closed(table: &Table) -> bool {
    !table.free && !table.crowded && !table.same_way
}

// Where each edge has two mates there is none.
fn paths_of(memory: &mut Memory, table: &Table, turns: &[u32], marked: &mut [bool]) -> Vec<Path> {
    let mut paths = memory.list();
    if is_closed(table) {
        return paths;
    }
    let after = turned_to(memory, turns);
    'rows: for i in 0..table.rows.len() {
        let first = short(i);
        if !is_set(&after, first) && table.row(first).edge != NONE {
            let last = follow(turns, first, marked);
            memory.add(&mut paths, Path { first, last });
        }
    }
    paths
}

fn cycles_of(memory: &mut Memory, table: &Table, turns: &[u32], marked: &mut [bool]) -> Vec<u32> {
    let mut cycles = memory.list();
    'rows: for i in 0..table.rows.len() {
        let first = short(i);
        if !is_set(marked, first) && table.row(first).edge != NONE {
            let _last = follow(turns, first, marked);
            memory.add(&mut cycles, first);
        }
    }
    cycles
}

/// The paths and the cycles of turns.
pub fn fans_of(memory: &mut Memory, table: &Table) -> Fans {
    let turns = turns_of(memory, table);
    let mut marked = memory.unset(short(table.rows.len()));
    let paths = paths_of(memory, table, &turns, &mut marked);
    let cycles = cycles_of(memory, table, &turns, &mut marked);
    Fans {
        paths,
        cycles,
        turns,
    }
}
