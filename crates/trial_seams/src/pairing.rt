//! Which edges pair.

use crate::sewn::Sewn;
use shell_change::{ArcKnown, Told};
use shell_trial::{
    EdgeFact, Facts, Memory, NONE, Table, at, is_set, more, put, put_item, set, short,
};

// Whether two edges are between the same two places.
fn same_places(a: EdgeFact, b: EdgeFact) -> bool {
    let same = a.from_place == b.from_place && a.to_place == b.to_place;
    let crossed = a.from_place == b.to_place && a.to_place == b.from_place;
    same || crossed
}

fn opposite_arcs(a: Option<ArcKnown>, b: Option<ArcKnown>) -> bool {
    match (a, b) {
        (Some(a), Some(b)) => a.circle == b.circle && a.start == b.end && a.end == b.start,
        _ => false,
    }
}

// Whether the records show that two edges between the same two places aren't one.
fn are_others(a: EdgeFact, b: EdgeFact) -> bool {
    if a.from_place == a.to_place || a.is_line && b.is_line {
        return false;
    }
    if a.record == b.record {
        return a.from_place != b.from_place;
    }
    opposite_arcs(a.arc, b.arc)
}

fn pairs_as(a: EdgeFact, b: EdgeFact, told: Told) -> bool {
    match told {
        Told::Sure => true,
        Told::Places => !are_others(a, b),
        Told::Curve => !same_places(a, b),
    }
}

// Whether the edge that is taken runs against the other one. Rows of edges with one place run opposite.
fn runs_against(
    table: &Table,
    taken: u32,
    left: u32,
    a: EdgeFact,
    b: EdgeFact,
    told: Told,
) -> bool {
    match told {
        Told::Curve => a.record != b.record,
        Told::Sure => a.from_place != a.to_place && a.from_place != b.from_place,
        Told::Places => {
            if a.from_place != a.to_place {
                return a.from_place != b.from_place;
            }
            let first = table.row(at(&table.first, taken));
            let second = table.row(at(&table.first, left));
            first.along == second.along
        }
    }
}

fn one_more(sewn: &mut Sewn, told: Told) {
    match told {
        Told::Sure => sewn.counts.sure = sewn.counts.sure.saturating_add(1),
        Told::Places => sewn.counts.ends = sewn.counts.ends.saturating_add(1),
        Told::Curve => sewn.counts.curve = sewn.counts.curve.saturating_add(1),
    }
}

fn add_pair(facts: &Facts, table: &Table, sewn: &mut Sewn, taken: u32, left: u32, told: Told) {
    let a = facts.edge(taken);
    let b = facts.edge(left);
    let against = runs_against(table, taken, left, a, b, told);
    put(&mut sewn.taken, left, taken);
    set(&mut sewn.opposite, left, against);
    put_item(&mut sewn.told, left, told);
    set(&mut sewn.used, left, true);
    set(&mut sewn.used, taken, true);
    one_more(sewn, told);
    let (from, to) = if against {
        (b.to, b.from)
    } else {
        (b.from, b.to)
    };
    sewn.common = sewn.common || a.from == from && a.to == to;
    sewn.round = sewn.round || told == Told::Sure && !a.is_line;
}

// Whether an edge has one row, and isn't sewn yet.
fn is_left(table: &Table, sewn: &Sewn, edge: u32) -> bool {
    table.rows_on(edge) == 1 && !is_set(&sewn.used, edge)
}

/// Pairs free edges of which just two are in one class.
pub(crate) fn pair_in(
    memory: &mut Memory,
    facts: &Facts,
    table: &Table,
    sewn: &mut Sewn,
    classes: &[u32],
    told: Told,
) {
    let count = short(classes.len());
    let mut found = memory.filled(count, 0);
    let mut first = memory.filled(count, NONE);
    'count: for edge in 0..count {
        let class = at(classes, edge);
        if is_left(table, sewn, edge) {
            more(&mut found, class);
            if at(&first, class) == NONE {
                put(&mut first, class, edge);
            }
        }
    }
    'pair: for left in 0..count {
        let class = at(classes, left);
        let taken = at(&first, class);
        let two = at(&found, class) == 2 && is_left(table, sewn, left) && taken != left;
        if two && pairs_as(facts.edge(taken), facts.edge(left), told) {
            add_pair(facts, table, sewn, taken, left, told);
        }
    }
}

/// Makes one edge of those that are sure to be one, where one of them is free.
pub(crate) fn pair_all(memory: &mut Memory, facts: &Facts, table: &Table, sewn: &mut Sewn) {
    let count = short(facts.sure.len());
    let mut first = memory.filled(count, NONE);
    let mut free = memory.filled(count, 0);
    'count: for edge in 0..count {
        let class = at(&facts.sure, edge);
        let rows = table.rows_on(edge);
        if rows > 0 && at(&first, class) == NONE {
            put(&mut first, class, edge);
        }
        if rows == 1 {
            more(&mut free, class);
        }
    }
    'pair: for left in 0..count {
        let class = at(&facts.sure, left);
        let taken = at(&first, class);
        if table.rows_on(left) > 0 && taken != left && at(&free, class) > 0 {
            add_pair(facts, table, sewn, taken, left, Told::Sure);
        }
    }
}
