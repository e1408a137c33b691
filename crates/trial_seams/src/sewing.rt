//! Sewing a shell at a level.

use crate::linking::{count_gaps, link_vertices};
use crate::pairing::{pair_all, pair_in};
use crate::sewn::{Sewn, unsewn};
use shell_change::Told;
use shell_trial::{Facts, Memory, NONE, Table, Trial, TrialEdge, TrialUse, at, is_set, short};

fn pair(memory: &mut Memory, facts: &Facts, table: &Table, sewn: &mut Sewn, level: u32) {
    if level == 4 {
        return pair_all(memory, facts, table, sewn);
    }
    pair_in(memory, facts, table, sewn, &facts.sure, Told::Sure);
    if level == 2 {
        return pair_in(memory, facts, table, sewn, &facts.ends, Told::Places);
    }
    if level == 3 {
        return pair_in(memory, facts, table, sewn, &facts.curves, Told::Curve);
    }
}

fn sewn_use(sewn: &Sewn, item: TrialUse) -> TrialUse {
    if !item.on_edge {
        let least = at(&sewn.least, item.item);
        return TrialUse {
            item: least,
            ..item
        };
    }
    let taken = at(&sewn.taken, item.item);
    if taken == NONE {
        return item;
    }
    TrialUse {
        item: taken,
        along: item.along != is_set(&sewn.opposite, item.item),
        ..item
    }
}

fn sew_uses(trial: &mut Trial, sewn: &Sewn) {
    'uses: for i in 0..trial.uses.len() {
        let i = short(i);
        let item = sewn_use(sewn, trial.item(i));
        trial.put_use(i, item);
    }
}

fn sew_edges(trial: &mut Trial, sewn: &Sewn) {
    'edges: for i in 0..trial.edges.len() {
        let i = short(i);
        let edge = trial.edge(i);
        let now = TrialEdge {
            from: at(&sewn.least, edge.from),
            to: at(&sewn.least, edge.to),
            ..edge
        };
        trial.put_edge(i, now);
    }
}

fn cost_of(sewn: &Sewn) -> u32 {
    let mut cost = 1;
    if sewn.counts.ends > 0 {
        cost += if sewn.common {
            6
        } else if sewn.round {
            5
        } else {
            2
        };
    }
    if sewn.counts.curve > 0 {
        cost += 3;
    }
    cost
}

/// Which edges of a shell, of which at most faces were removed, are sewn at a level: at 1 by sure seams, at 2 by these and by places,
/// at 3 by these and by curves, at 4 all edges that are sure to be one. Nothing is sewn yet.
pub fn seams_at(memory: &mut Memory, facts: &Facts, table: &Table, level: u32) -> Sewn {
    let mut sewn = unsewn(memory, facts);
    if level > 0 {
        pair(memory, facts, table, &mut sewn, level);
        sewn.counts.gaps = count_gaps(facts, table);
    }
    sewn
}

/// Sews a shell by these seams, and joins the gaps between vertices of one place.
pub fn sew(memory: &mut Memory, facts: &Facts, table: &Table, trial: &mut Trial, sewn: &mut Sewn) {
    link_vertices(memory, facts, table, sewn);
    sew_uses(trial, sewn);
    sew_edges(trial, sewn);
    trial.pay(cost_of(sewn));
    trial.sure = trial.sure && sewn.counts.ends == 0 && sewn.counts.curve == 0;
}
