//! Turning faces, so that the two rows of an edge run opposite.

use crate::turning_loops::turn_loops;
use shell_trial::{Facts, Memory, NONE, Row, Sets, Table, Trial, at, is_set, more, set, short};

/// The first row of two of an edge, and the other one; None where its edge hasn't two, or it isn't the first.
pub(crate) fn two_rows(table: &Table, i: u32) -> Option<(Row, Row)> {
    let row = table.row(i);
    if row.edge == NONE || table.rows_on(row.edge) != 2 || row.same == NONE {
        return None;
    }
    Some((row, table.row(row.same)))
}

// Joins the faces of each edge with two rows. False where no flags make all of them opposite.
fn join_faces(facts: &Facts, table: &Table, sets: &mut Sets) -> bool {
    let mut agree = true;
    'rows: for i in 0..table.rows.len() {
        let i = short(i);
        if let Some((row, other)) = two_rows(table, i) {
            let a = at(&facts.face_of, i);
            let b = at(&facts.face_of, row.same);
            let joined = sets.join(a, b, row.along == other.along);
            agree = agree && joined;
        }
    }
    agree
}

/// Of each set the members on the side that is to be turned: that without the least one, unless it has more.
pub(crate) fn smaller_sides(memory: &mut Memory, sets: &mut Sets, members: &[bool]) -> Vec<bool> {
    let count = short(members.len());
    let mut here = memory.filled(count, 0);
    let mut there = memory.filled(count, 0);
    'count: for i in 0..count {
        if is_set(members, i) {
            let found = sets.find(i);
            if found.other {
                more(&mut there, found.least);
            } else {
                more(&mut here, found.least);
            }
        }
    }
    let mut out = memory.unset(count);
    'choose: for i in 0..count {
        if is_set(members, i) {
            let found = sets.find(i);
            let few = at(&there, found.least) <= at(&here, found.least);
            set(&mut out, i, found.other == few);
        }
    }
    out
}

/// Which faces are kept.
pub(crate) fn kept_faces(memory: &mut Memory, trial: &Trial) -> Vec<bool> {
    let count = short(trial.pieces.len());
    let mut out = memory.unset(count);
    'faces: for i in 0..count {
        set(&mut out, i, at(&trial.pieces, i) != NONE);
    }
    out
}

fn change_flags(trial: &mut Trial, turned: &[bool]) {
    'faces: for i in 0..turned.len() {
        let i = short(i);
        if is_set(turned, i) {
            let flag = is_set(&trial.flags, i);
            set(&mut trial.flags, i, !flag);
        }
    }
}

// Whether flags alone did it.
fn turn_faces(memory: &mut Memory, facts: &Facts, trial: &mut Trial, table: &Table) -> bool {
    let mut sets = Sets::new(memory, short(facts.faces.len()));
    if !join_faces(facts, table, &mut sets) {
        return false;
    }
    let kept = kept_faces(memory, trial);
    let turned = smaller_sides(memory, &mut sets, &kept);
    change_flags(trial, &turned);
    true
}

/// Turns faces, or else loops, so that the two rows of each edge with two run opposite. Whether that can be.
pub fn turn(memory: &mut Memory, facts: &Facts, trial: &mut Trial, table: &Table) -> bool {
    if turn_faces(memory, facts, trial, table) {
        trial.pay(1);
        return true;
    }
    turn_loops(memory, facts, trial, table)
}
