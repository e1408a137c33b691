//! What may still be done to a shell once it is sewn and faces are removed.

use crate::found::{Found, add_trial};
use shell_trial::{Facts, Key, Memory, Table, Trial, copy_of, table_after, table_of};
use trial_seams::Sewn;
use trial_steps::{
    By, can_split_edges, fans_of, fill, is_whole, part, rows_to_split, split_edges, split_vertices,
    turn, turn_uses,
};

// Whether each loop joins, and the rows of each edge with two run opposite; with the rows, if something was turned for that.
#[derive(Drop)]
enum Straight {
    Not,
    Already,
    Now(Table),
}

fn straightened(table: Table) -> Straight {
    if table.gaps.is_empty() && !table.same_way {
        Straight::Now(table)
    } else {
        Straight::Not
    }
}

// Turns uses in the loops that have gaps, and what runs the wrong way then.
fn straighten_loops(
    memory: &mut Memory,
    facts: &Facts,
    trial: &mut Trial,
    table: &Table,
) -> Straight {
    if !turn_uses(memory, facts, trial, table) {
        return Straight::Not;
    }
    let now = table_of(memory, facts, trial);
    if !now.same_way {
        return straightened(now);
    }
    if !turn(memory, facts, trial, &now) {
        return Straight::Not;
    }
    straightened(table_of(memory, facts, trial))
}

// Turns what runs the wrong way.
fn straighten(memory: &mut Memory, facts: &Facts, trial: &mut Trial, table: &Table) -> Straight {
    let turned = table.same_way && turn(memory, facts, trial, table);
    if !table.gaps.is_empty() {
        return straighten_loops(memory, facts, trial, table);
    }
    if turned {
        return straightened(table_of(memory, facts, trial));
    }
    if table.same_way {
        Straight::Not
    } else {
        Straight::Already
    }
}

// What a trial costs at least in the end: a face on the first rim costs 3, and no step gives an edge of one row another.
fn least_cost(trial: &Trial, table: &Table) -> u32 {
    if table.free {
        trial.cost.saturating_add(3)
    } else {
        trial.cost
    }
}

// Parts a shell, if it isn't parted yet, splits its vertices and fills its rims; if it passes, it is a remedy. None of this changes
// the rows of an edge.
fn finish(
    memory: &mut Memory,
    facts: &Facts,
    sewn: &Sewn,
    trial: &mut Trial,
    table: &Table,
    found: &mut Found,
) {
    if !is_whole(table) || found.is_too_dear(least_cost(trial, table)) {
        return;
    }
    if trial.piece_count < 2 {
        let _parted = part(memory, facts, trial, table, By::All);
    }
    if found.is_too_dear(least_cost(trial, table)) {
        return;
    }
    let fans = fans_of(memory, table);
    split_vertices(memory, facts, trial, table, &fans);
    fill(memory, facts, trial, table, &fans);
    add_trial(memory, facts, sewn, trial, found);
}

// In which of three ways crowded edges become edges of two rows.
#[derive(Clone, Copy)]
enum Thinning<'a> {
    Cut,
    // The rows of edges with four rows or more, and by how many places those against are further on.
    Split(&'a [Key], u32),
}

const SPLIT_COST: u32 = 4;

// What a way costs at least.
fn cost_of(way: Thinning<'_>) -> u32 {
    match way {
        Thinning::Cut => 2,
        Thinning::Split(_, _) => SPLIT_COST,
    }
}

// Makes crowded edges edges of two rows. The rows then, if the way does something.
fn thin(
    memory: &mut Memory,
    facts: &Facts,
    trial: &mut Trial,
    table: &Table,
    way: Thinning<'_>,
) -> Option<Table> {
    match way {
        Thinning::Cut => {
            if !part(memory, facts, trial, table, By::Mates) {
                return None;
            }
        }
        Thinning::Split(rows, further) => split_edges(memory, trial, table, rows, further),
    }
    Some(table_after(memory, facts, trial, table))
}

// Turns what runs the wrong way since edges were split.
fn turn_split(
    memory: &mut Memory,
    facts: &Facts,
    trial: &mut Trial,
    table: Table,
    way: Thinning<'_>,
) -> Table {
    let split = matches!(way, Thinning::Split(_, _));
    if split && table.same_way && turn(memory, facts, trial, &table) {
        return table_of(memory, facts, trial);
    }
    table
}

fn is_way_too_dear(trial: &Trial, way: (Thinning<'_>, &Table), found: &Found) -> bool {
    let (way, table) = way;
    found.is_too_dear(cost_of(way).saturating_add(least_cost(trial, table)))
}

fn try_way(
    memory: &mut Memory,
    facts: &Facts,
    sewn: &Sewn,
    trial: &mut Trial,
    way: (Thinning<'_>, &Table),
    found: &mut Found,
) {
    if is_way_too_dear(trial, way, found) {
        return;
    }
    let (way, table) = way;
    if let Some(thinned) = thin(memory, facts, trial, table, way) {
        let rows = turn_split(memory, facts, trial, thinned, way);
        finish(memory, facts, sewn, trial, &rows, found);
    }
}

// The same, of a copy.
fn try_way_apart(
    memory: &mut Memory,
    facts: &Facts,
    sewn: &Sewn,
    trial: &Trial,
    way: (Thinning<'_>, &Table),
    found: &mut Found,
) {
    if !is_way_too_dear(trial, way, found) {
        let mut other = copy_of(memory, trial);
        try_way(memory, facts, sewn, &mut other, way, found);
    }
}

fn try_splits(
    memory: &mut Memory,
    facts: &Facts,
    sewn: &Sewn,
    trial: &mut Trial,
    table: &Table,
    found: &mut Found,
) {
    if found.is_too_dear(SPLIT_COST.saturating_add(least_cost(trial, table))) {
        return;
    }
    let rows = rows_to_split(memory, facts, table);
    let first = (Thinning::Split(&rows, 0), table);
    try_way_apart(memory, facts, sewn, trial, first, found);
    let second = (Thinning::Split(&rows, 1), table);
    try_way(memory, facts, sewn, trial, second, found)
}

// Cuts a shell, or splits its crowded edges.
fn try_crowded(
    memory: &mut Memory,
    facts: &Facts,
    sewn: &Sewn,
    trial: &mut Trial,
    table: &Table,
    found: &mut Found,
) {
    let cut = (Thinning::Cut, table);
    if can_split_edges(table) {
        try_way_apart(memory, facts, sewn, trial, cut, found);
        try_splits(memory, facts, sewn, trial, table, found)
    } else {
        try_way(memory, facts, sewn, trial, cut, found)
    }
}

// What may be done to a shell of which each loop joins, and the rows of each edge with two run opposite.
fn try_straight(
    memory: &mut Memory,
    facts: &Facts,
    sewn: &Sewn,
    trial: &mut Trial,
    table: &Table,
    found: &mut Found,
) {
    if table.crowded {
        return try_crowded(memory, facts, sewn, trial, table, found);
    }
    finish(memory, facts, sewn, trial, table, found)
}

/// Tries what may still be done to a shell, of which these are the rows, and adds the remedies that there are.
pub(crate) fn try_ways(
    memory: &mut Memory,
    facts: &Facts,
    sewn: &Sewn,
    trial: &mut Trial,
    table: &Table,
    found: &mut Found,
) {
    match straighten(memory, facts, trial, table) {
        Straight::Not => {}
        Straight::Already => try_straight(memory, facts, sewn, trial, table, found),
        Straight::Now(now) => try_straight(memory, facts, sewn, trial, &now, found),
    }
}
