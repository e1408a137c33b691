//! Parting a shell into the bodies that it falls into.

use crate::separating::separate;
use shell_trial::{Facts, Memory, NONE, Sets, Table, Trial, at, mate, put, short};

/// Which edges join the faces that have them.
#[derive(Clone, Copy, PartialEq, Eq)]
pub enum By {
    /// Each one.
    All,
    /// Those with two rows.
    Pairs,
    /// Those whose two rows are mates.
    Mates,
}

fn joins(table: &Table, i: u32, by: By) -> bool {
    match by {
        By::All => true,
        By::Pairs => table.rows_on(table.row(i).edge) == 2,
        By::Mates => mate(table, i) != NONE,
    }
}

/// The sets of faces that edges join.
pub fn sets_of(memory: &mut Memory, facts: &Facts, table: &Table, by: By) -> Sets {
    let mut sets = Sets::new(memory, short(facts.faces.len()));
    // Rows that follow one another often join the same two faces.
    let mut last = (NONE, NONE);
    'rows: for i in 0..table.rows.len() {
        let i = short(i);
        let row = table.row(i);
        if row.edge != NONE && row.same != NONE && joins(table, i, by) {
            let pair = (at(&facts.face_of, i), at(&facts.face_of, row.same));
            if pair.0 != last.0 || pair.1 != last.1 {
                let _joined = sets.join(pair.0, pair.1, false);
                last = pair;
            }
        }
    }
    sets
}

// Of each face the number of its set among those of the faces that are kept, by their first faces.
fn numbered(memory: &mut Memory, trial: &Trial, sets: &mut Sets) -> (Vec<u32>, u32) {
    let faces = short(trial.pieces.len());
    let mut numbers = memory.filled(faces, NONE);
    let mut out = memory.filled(faces, NONE);
    let mut count = 0u32;
    'faces: for i in 0..faces {
        if at(&trial.pieces, i) != NONE {
            let least = sets.find(i).least;
            if at(&numbers, least) == NONE {
                put(&mut numbers, least, count);
                count = count.saturating_add(1);
            }
            put(&mut out, i, at(&numbers, least));
        }
    }
    (out, count)
}

/// Parts a shell into the sets of faces that edges join. Whether there are two or more.
pub fn part(memory: &mut Memory, facts: &Facts, trial: &mut Trial, table: &Table, by: By) -> bool {
    let mut sets = sets_of(memory, facts, table, by);
    let (pieces, count) = numbered(memory, trial, &mut sets);
    if count < 2 {
        return false;
    }
    trial.pieces = pieces;
    trial.piece_count = count;
    trial.pay(2);
    separate(memory, facts, trial);
    true
}
