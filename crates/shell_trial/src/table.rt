//! The rows of a trial: the uses of edges by the faces that it keeps.

use crate::cells::{NONE, at, is_set, item_at, more, put, put_item, short};
use crate::facts::{Facts, LoopFact};
use crate::memory::Memory;
use crate::trial::{Trial, TrialUse};

/// A row, by the number of its use.
#[derive(Clone, Copy)]
pub struct Row {
    /// Its edge; `NONE` where the use is no row.
    pub edge: u32,
    /// Whether it runs along the edge by all three flags.
    pub along: bool,
    /// What follows it.
    pub next: u32,
    /// The next row of its edge; `NONE` if it is the last.
    pub same: u32,
}

/// Two vertices at which a use ends and the next one starts.
#[derive(Clone, Copy)]
pub struct Gap {
    pub at_loop: u32,
    pub end: u32,
    pub start: u32,
}

/// The rows of a trial.
#[derive(Drop)]
pub struct Table {
    /// One for each use.
    pub rows: Vec<Row>,
    /// Of each edge its first row.
    pub first: Vec<u32>,
    /// Of each edge how many rows it has.
    pub count: Vec<u32>,
    pub gaps: Vec<Gap>,
    /// Whether some edge has two rows that run the same way.
    pub same_way: bool,
    /// Whether some edge has more than two rows.
    pub crowded: bool,
    /// Whether some edge has one row.
    pub free: bool,
}

const NO_ROW: Row = Row {
    edge: NONE,
    along: false,
    next: NONE,
    same: NONE,
};

impl Table {
    pub fn row(&self, i: u32) -> Row {
        item_at(&self.rows, i, NO_ROW)
    }

    /// How many rows an edge has.
    pub fn rows_on(&self, edge: u32) -> u32 {
        item_at(&self.count, edge, 0)
    }

    /// Where a row alone has its edge.
    pub fn is_free(&self, i: u32) -> bool {
        let row = self.row(i);
        row.edge != NONE && self.rows_on(row.edge) == 1
    }
}

// From which vertex to which one a use runs by its own flag alone.
fn bare_ends(trial: &Trial, item: TrialUse) -> (u32, u32) {
    if !item.on_edge {
        return (item.item, item.item);
    }
    let edge = trial.edge(item.item);
    if item.along {
        (edge.from, edge.to)
    } else {
        (edge.to, edge.from)
    }
}

fn add_gap(memory: &mut Memory, table: &mut Table, at_loop: u32, end: u32, start: u32) {
    if end != start {
        memory.add(
            &mut table.gaps,
            Gap {
                at_loop,
                end,
                start,
            },
        );
    }
}

fn put_next(rows: &mut [Row], i: u32, next: u32) {
    let i = i as usize;
    if i < rows.len() {
        rows[i].next = next;
    }
}

fn put_same(rows: &mut [Row], i: u32, same: u32) {
    let i = i as usize;
    if i < rows.len() {
        rows[i].same = same;
    }
}

fn link(table: &mut Table, before: u32, after: u32, back: bool) {
    if back {
        put_next(&mut table.rows, after, before);
    } else {
        put_next(&mut table.rows, before, after);
    }
}

// Puts a row behind the rows of its edge that there are.
fn add_row(table: &mut Table, lasts: &mut [u32], here: u32, row: Row) {
    put_item(&mut table.rows, here, row);
    let last = at(lasts, row.edge);
    if last == NONE {
        put(&mut table.first, row.edge, here);
    } else {
        put_same(&mut table.rows, last, here);
    }
    put(lasts, row.edge, here);
    more(&mut table.count, row.edge);
}

fn add_rows(trial: &Trial, table: &mut Table, lasts: &mut [u32], walk: LoopFact, back: bool) {
    let mut first = NONE;
    let mut before = NONE;
    'uses: for t in 0..walk.uses {
        let here = walk.first_use.saturating_add(t);
        let item = trial.item(here);
        if item.on_edge {
            let row = Row {
                edge: item.item,
                along: item.along != back,
                next: NONE,
                same: NONE,
            };
            add_row(table, lasts, here, row);
            if first == NONE {
                first = here;
            } else {
                link(table, before, here, back);
            }
            before = here;
        }
    }
    if first != NONE {
        link(table, before, first, back);
    }
}

fn add_gaps(memory: &mut Memory, trial: &Trial, table: &mut Table, number: u32, walk: LoopFact) {
    if walk.uses == 0 {
        return;
    }
    let (begin, mut end) = bare_ends(trial, trial.item(walk.first_use));
    'uses: for t in 1..walk.uses {
        let here = walk.first_use.saturating_add(t);
        let (start, next) = bare_ends(trial, trial.item(here));
        add_gap(memory, table, number, end, start);
        end = next;
    }
    add_gap(memory, table, number, end, begin);
}

fn add_loops(
    memory: &mut Memory,
    facts: &Facts,
    trial: &Trial,
    table: &mut Table,
    lasts: &mut [u32],
) {
    'loops: for i in 0..facts.loops.len() {
        let number = short(i);
        let walk = facts.walk(number);
        if at(&trial.pieces, walk.face) != NONE {
            let back = is_set(&trial.flags, walk.face) != facts.flag;
            add_rows(trial, table, lasts, walk, back);
            add_gaps(memory, trial, table, number, walk);
        }
    }
}

// Whether the first two rows of an edge run the same way.
fn run_alike(table: &Table, edge: u32) -> bool {
    let row = table.row(at(&table.first, edge));
    row.along == table.row(row.same).along
}

fn look_over(table: &mut Table) {
    let mut same_way = false;
    let mut crowded = false;
    let mut free = false;
    'edges: for edge in 0..short(table.count.len()) {
        let count = table.rows_on(edge);
        same_way = same_way || count == 2 && run_alike(table, edge);
        crowded = crowded || count > 2;
        free = free || count == 1;
    }
    table.same_way = same_way;
    table.crowded = crowded;
    table.free = free;
}

fn table_with(memory: &mut Memory, trial: &Trial, rows: Vec<Row>) -> Table {
    let edges = short(trial.edges.len());
    Table {
        rows,
        first: memory.filled(edges, NONE),
        count: memory.filled(edges, 0),
        gaps: memory.list(),
        same_way: false,
        crowded: false,
        free: false,
    }
}

/// The rows of a trial.
pub fn table_of(memory: &mut Memory, facts: &Facts, trial: &Trial) -> Table {
    let rows = memory.many(short(trial.uses.len()), NO_ROW);
    let mut table = table_with(memory, trial, rows);
    let mut lasts = memory.filled(short(trial.edges.len()), NONE);
    add_loops(memory, facts, trial, &mut table, &mut lasts);
    look_over(&mut table);
    table
}

// Lets the rows of faces that are kept name the edges that they have now, and leaves out the others.
fn keep_rows(facts: &Facts, trial: &Trial, table: &mut Table, lasts: &mut [u32]) {
    'rows: for i in 0..table.rows.len() {
        let i = short(i);
        let row = table.row(i);
        if row.edge != NONE {
            if at(&trial.pieces, at(&facts.face_of, i)) == NONE {
                put_item(&mut table.rows, i, NO_ROW);
            } else {
                let edge = trial.item(i).item;
                let same = NONE;
                add_row(table, lasts, i, Row { edge, same, ..row });
            }
        }
    }
}

fn keep_gaps(memory: &mut Memory, facts: &Facts, trial: &Trial, table: &mut Table, gaps: &[Gap]) {
    'gaps: for i in 0..gaps.len() {
        let gap = gaps[i];
        if at(&trial.pieces, facts.walk(gap.at_loop).face) != NONE {
            memory.add(&mut table.gaps, gap);
        }
    }
}

/// The rows of a trial, by those that it had before faces were removed, or before uses came to name other edges between the same
/// vertices: each row that is left runs as before, and is followed by the same one.
pub fn table_after(memory: &mut Memory, facts: &Facts, trial: &Trial, before: &Table) -> Table {
    let rows = memory.copied(&before.rows);
    let mut table = table_with(memory, trial, rows);
    let mut lasts = memory.filled(short(trial.edges.len()), NONE);
    keep_rows(facts, trial, &mut table, &mut lasts);
    keep_gaps(memory, facts, trial, &mut table, &before.gaps);
    look_over(&mut table);
    table
}

/// At which vertex a row starts.
pub fn start_of(trial: &Trial, row: Row) -> u32 {
    let edge = trial.edge(row.edge);
    if row.along { edge.from } else { edge.to }
}

/// The mate of a row; `NONE` where it has none.
pub fn mate(table: &Table, i: u32) -> u32 {
    let row = table.row(i);
    if table.rows_on(row.edge) != 2 {
        return NONE;
    }
    let first = at(&table.first, row.edge);
    let other = if first == i { row.same } else { first };
    if table.row(other).along != row.along {
        other
    } else {
        NONE
    }
}
