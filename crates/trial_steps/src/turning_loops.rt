//! Turning loops, where turning faces alone doesn't do.

use crate::turning::{smaller_sides, two_rows};
use shell_trial::{
    FaceFact, Facts, LoopFact, Memory, NONE, Sets, Table, Trial, TrialUse, at, is_set, set, short,
};

// Joins the loops of each edge with two rows. False where nothing makes all of them opposite.
fn join_loops(facts: &Facts, table: &Table, sets: &mut Sets) -> bool {
    let mut agree = true;
    'rows: for i in 0..table.rows.len() {
        let i = short(i);
        if let Some((row, other)) = two_rows(table, i) {
            let a = at(&facts.loop_of, i);
            let b = at(&facts.loop_of, row.same);
            let joined = sets.join(a, b, row.along == other.along);
            agree = agree && joined;
        }
    }
    agree
}

fn kept_loops(memory: &mut Memory, facts: &Facts, trial: &Trial) -> Vec<bool> {
    let count = short(facts.loops.len());
    let mut out = memory.unset(count);
    'loops: for i in 0..count {
        let face = facts.walk(i).face;
        set(&mut out, i, at(&trial.pieces, face) != NONE);
    }
    out
}

fn opposite(item: TrialUse) -> TrialUse {
    TrialUse {
        along: item.along != item.on_edge,
        ..item
    }
}

// Exchanges the i-th use and the i-th from the end, up to the middle, each run the other way.
fn turn_loop(trial: &mut Trial, number: u32, walk: LoopFact) {
    'uses: for i in 0..walk.uses {
        let other = walk.uses - 1 - i;
        if i > other {
            break 'uses;
        }
        let a = walk.first_use.saturating_add(i);
        let b = walk.first_use.saturating_add(other);
        let first = opposite(trial.item(a));
        let second = opposite(trial.item(b));
        trial.put_use(a, second);
        trial.put_use(b, first);
    }
    let reversed = is_set(&trial.reversed, number);
    set(&mut trial.reversed, number, !reversed);
}

fn turned_loops(face: FaceFact, turned: &[bool]) -> u32 {
    let mut count = 0u32;
    'loops: for i in 0..face.loops {
        if is_set(turned, face.first_loop.saturating_add(i)) {
            count = count.saturating_add(1);
        }
    }
    count
}

fn turn_loops_of(facts: &Facts, trial: &mut Trial, face: FaceFact, turned: &[bool]) {
    'loops: for i in 0..face.loops {
        let number = face.first_loop.saturating_add(i);
        if is_set(turned, number) {
            turn_loop(trial, number, facts.walk(number));
        }
    }
}

// Turns these loops: a face of which all turn changes its flag. Whether some loop was reversed.
fn turn_these(facts: &Facts, trial: &mut Trial, turned: &[bool]) -> bool {
    let mut some = false;
    'faces: for i in 0..facts.faces.len() {
        let i = short(i);
        let face = facts.face(i);
        let count = turned_loops(face, turned);
        if count > 0 && count == face.loops {
            let flag = is_set(&trial.flags, i);
            set(&mut trial.flags, i, !flag);
        } else if count > 0 {
            turn_loops_of(facts, trial, face, turned);
            some = true;
        }
    }
    some
}

/// Turns loops so that the two rows of each edge with two run opposite. Whether that can be.
pub(crate) fn turn_loops(
    memory: &mut Memory,
    facts: &Facts,
    trial: &mut Trial,
    table: &Table,
) -> bool {
    let mut sets = Sets::new(memory, short(facts.loops.len()));
    if !join_loops(facts, table, &mut sets) {
        return false;
    }
    let kept = kept_loops(memory, facts, trial);
    let turned = smaller_sides(memory, &mut sets, &kept);
    let reversed = turn_these(facts, trial, &turned);
    trial.pay(if reversed { 2 } else { 1 });
    true
}
