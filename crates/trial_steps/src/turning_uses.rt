//! Turning uses of edges, so that a loop joins.

use shell_trial::{Facts, LoopFact, Memory, NONE, Table, Trial, TrialUse, is_set, set, short};

// Where a use starts and ends with this flag.
fn ends_with(trial: &Trial, item: TrialUse, along: bool) -> (u32, u32) {
    if !item.on_edge {
        return (item.item, item.item);
    }
    let edge = trial.edge(item.item);
    if along {
        (edge.from, edge.to)
    } else {
        (edge.to, edge.from)
    }
}

// Whether the t-th use of a loop is to be turned, if the one before ends at a vertex.
fn turns(trial: &Trial, item: TrialUse, first: bool, begins: bool, before: u32) -> bool {
    if !item.on_edge {
        return false;
    }
    if begins {
        return first;
    }
    let (start, _) = ends_with(trial, item, item.along);
    start != before
}

// How many uses turn, where the first one turns or doesn't and each next one follows; `NONE` where the loop doesn't join so.
fn turns_of(trial: &Trial, walk: LoopFact, first: bool) -> u32 {
    let mut begin = NONE;
    let mut before = NONE;
    let mut count = 0u32;
    'uses: for t in 0..walk.uses {
        let item = trial.item(walk.first_use.saturating_add(t));
        let turned = turns(trial, item, first, t == 0, before);
        let (start, end) = ends_with(trial, item, item.along != turned);
        if t == 0 {
            begin = start;
        } else if start != before {
            return NONE;
        }
        if turned {
            count = count.saturating_add(1);
        }
        before = end;
    }
    if before == begin { count } else { NONE }
}

fn turn_along(trial: &mut Trial, walk: LoopFact, first: bool) {
    let mut before = NONE;
    'uses: for t in 0..walk.uses {
        let here = walk.first_use.saturating_add(t);
        let item = trial.item(here);
        let turned = turns(trial, item, first, t == 0, before);
        let along = item.along != turned;
        let (_, end) = ends_with(trial, item, along);
        trial.put_use(here, TrialUse { along, ..item });
        before = end;
    }
}

// Whether a loop was made to join, by the fewest uses.
fn turn_in(trial: &mut Trial, walk: LoopFact) -> bool {
    let kept = turns_of(trial, walk, false);
    let turned = turns_of(trial, walk, true);
    if kept == NONE && turned == NONE {
        return false;
    }
    turn_along(trial, walk, turned < kept);
    true
}

fn loops_with_gaps(memory: &mut Memory, facts: &Facts, table: &Table) -> Vec<bool> {
    let mut out = memory.unset(short(facts.loops.len()));
    'gaps: for i in 0..table.gaps.len() {
        set(&mut out, table.gaps[i].at_loop, true);
    }
    out
}

/// Turns uses in the loops that have gaps, the fewest with which each joins. Whether it did something.
pub fn turn_uses(memory: &mut Memory, facts: &Facts, trial: &mut Trial, table: &Table) -> bool {
    let gaps = loops_with_gaps(memory, facts, table);
    let mut some = false;
    'loops: for i in 0..facts.loops.len() {
        let i = short(i);
        if is_set(&gaps, i) {
            let turned = turn_in(trial, facts.walk(i));
            some = some || turned;
        }
    }
    if some {
        trial.pay(2);
        trial.sure = false;
    }
    some
}
