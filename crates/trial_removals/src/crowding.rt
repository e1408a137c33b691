//! The crowded edges of each patch.

use crate::patches::Patches;
use shell_trial::{Facts, Key, Memory, NONE, Table, at, is_set, item_at, key_of, set, short};

/// How many rows of a crowded edge a patch has, of all.
#[derive(Clone, Copy)]
pub(crate) struct Crowd {
    pub(crate) patch: u32,
    pub(crate) edge: u32,
    pub(crate) own: u32,
    pub(crate) all: u32,
}

pub(crate) const NO_CROWD: Crowd = Crowd {
    patch: NONE,
    edge: NONE,
    own: 0,
    all: 0,
};

fn crowded_rows(memory: &mut Memory, facts: &Facts, table: &Table, patches: &Patches) -> Vec<Key> {
    let mut out: Vec<Key> = memory.list();
    'rows: for i in 0..table.rows.len() {
        let i = short(i);
        let row = table.row(i);
        if row.edge != NONE && table.rows_on(row.edge) > 2 {
            let patch = at(&patches.patch, at(&facts.face_of, i));
            memory.add(&mut out, key_of(patch, row.edge, i));
        }
    }
    memory.sort(&mut out);
    out
}

const NO_KEY: Key = Key {
    first: NONE,
    second: NONE,
    third: NONE,
    fourth: NONE,
    place: NONE,
};

/// The crowded edges of each patch, by patch, then by edge.
pub(crate) fn crowds_of(
    memory: &mut Memory,
    facts: &Facts,
    table: &Table,
    patches: &Patches,
) -> Vec<Crowd> {
    let rows = crowded_rows(memory, facts, table, patches);
    let mut out = memory.list();
    let mut own = 0u32;
    'rows: for i in 0..rows.len() {
        let key = rows[i];
        let next = item_at(&rows, short(i).saturating_add(1), NO_KEY);
        own = own.saturating_add(1);
        if next.first != key.first || next.second != key.second {
            memory.add(
                &mut out,
                Crowd {
                    patch: key.first,
                    edge: key.second,
                    own,
                    all: table.rows_on(key.second),
                },
            );
            own = 0;
        }
    }
    out
}

/// Whether so many rows without some leave none, or two.
pub(crate) fn leaves_well(all: u32, own: u32) -> bool {
    all == own || all == own.saturating_add(2)
}

/// Which patches are clean.
pub(crate) fn clean_patches(memory: &mut Memory, crowds: &[Crowd], faces: u32) -> Vec<bool> {
    let mut clean = memory.unset(faces);
    'there: for i in 0..crowds.len() {
        set(&mut clean, crowds[i].patch, true);
    }
    'well: for i in 0..crowds.len() {
        let crowd = crowds[i];
        let well = is_set(&clean, crowd.patch) && leaves_well(crowd.all, crowd.own);
        set(&mut clean, crowd.patch, well);
    }
    clean
}
