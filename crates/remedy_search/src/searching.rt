//! The search for remedies of a shell.

use crate::ending::try_ways;
use crate::found::{Found, settle, told};
use edge_uses::Rows;
use iges_base::NoMemory;
use shell_change::{Known, Remedy};
use shell_trial::{
    Facts, Memory, Table, Trial, copy_of, facts_of, first_trial, table_after, table_of,
};
use solid_data::{ShellAt, Solid};
use std::alloc::Global;
use trial_removals::{Removal, copies, like_faces, removals, remove};
use trial_seams::{SeamCounts, Sewn, seams_at, sew};

const NO_SEAMS: SeamCounts = SeamCounts {
    sure: 0,
    ends: 0,
    curve: 0,
    gaps: 0,
};

// Tries a sewn shell as it is.
fn try_plain(
    memory: &mut Memory,
    facts: &Facts,
    sewn: &Sewn,
    trial: &Trial,
    table: &Table,
    found: &mut Found,
) {
    found.count_trial();
    if !found.is_too_dear(trial.cost) {
        let mut plain = copy_of(memory, trial);
        try_ways(memory, facts, sewn, &mut plain, table, found);
    }
}

// Tries a sewn shell without some faces.
fn try_removal(
    memory: &mut Memory,
    facts: &Facts,
    sewn: &Sewn,
    trial: (&Trial, &Table),
    removal: &Removal,
    found: &mut Found,
) {
    let (trial, table) = trial;
    found.count_trial();
    if found.is_too_dear(trial.cost.saturating_add(removal.cost)) {
        return;
    }
    let mut other = copy_of(memory, trial);
    remove(&mut other, removal);
    other.sure = false;
    let rows = table_after(memory, facts, &other, table);
    try_ways(memory, facts, sewn, &mut other, &rows, found);
}

// Tries a sewn shell, as it is and with each set of faces removed that may be too many.
fn try_removals(
    memory: &mut Memory,
    facts: &Facts,
    sewn: &Sewn,
    trial: &Trial,
    table: &Table,
    found: &mut Found,
) {
    try_plain(memory, facts, sewn, trial, table, found);
    if found.is_over() {
        return;
    }
    let removals = removals(memory, facts, trial, table);
    'removals: for i in 0..removals.len() {
        if found.is_over() {
            break 'removals;
        }
        try_removal(memory, facts, sewn, (trial, table), &removals[i], found);
    }
}

// Sews a shell by these seams, if there are any, and tries it.
fn try_sewn(
    memory: &mut Memory,
    facts: &Facts,
    sewn: Sewn,
    trial: &Trial,
    table: &Table,
    found: &mut Found,
) {
    if sewn.counts == NO_SEAMS {
        return try_removals(memory, facts, &sewn, trial, table, found);
    }
    let mut sewn = sewn;
    let mut other = copy_of(memory, trial);
    sew(memory, facts, table, &mut other, &mut sewn);
    let rows = table_of(memory, facts, &other);
    try_removals(memory, facts, &sewn, &other, &rows, found)
}

fn is_among(seen: &[SeamCounts], counts: SeamCounts) -> bool {
    'seen: for i in 0..seen.len() {
        if seen[i] == counts {
            return true;
        }
    }
    false
}

// How many levels may differ: without a free edge there are no seams, but gaps may be joined.
fn level_count(table: &Table) -> u32 {
    if table.free {
        5
    } else if table.gaps.is_empty() {
        1
    } else {
        2
    }
}

// Tries a shell unsewn, and sewn at each level that sews other numbers than those before.
fn try_levels(memory: &mut Memory, facts: &Facts, trial: &Trial, table: &Table, found: &mut Found) {
    let mut seen = memory.list();
    'levels: for level in 0..level_count(table) {
        if found.is_over() {
            break 'levels;
        }
        let sewn = seams_at(memory, facts, table, level);
        let counts = sewn.counts;
        if !is_among(&seen, counts) {
            memory.add(&mut seen, counts);
            try_sewn(memory, facts, sewn, trial, table, found);
        }
    }
}

// Tries a shell as it is, and without the faces that are there twice.
fn try_all(memory: &mut Memory, facts: &Facts, like: &[u32], found: &mut Found) {
    let trial = first_trial(memory, facts);
    let table = table_of(memory, facts, &trial);
    try_levels(memory, facts, &trial, &table, found);
    if found.is_over() {
        return;
    }
    let copies = copies(memory, facts, &table, like);
    'copies: for i in 0..copies.len() {
        if found.is_over() {
            break 'copies;
        }
        let mut other = copy_of(memory, &trial);
        remove(&mut other, &copies[i]);
        let rows = table_after(memory, facts, &other, &table);
        try_levels(memory, facts, &other, &rows, found);
    }
}

fn remedies_of(
    memory: &mut Memory,
    solid: &Solid,
    known: &Known,
    shell: ShellAt,
    rows: &Rows,
    below: usize,
) -> Vec<Remedy> {
    let Some(facts) = facts_of(memory, solid, known, shell, rows, below) else {
        return memory.list();
    };
    let mut found = Found::new(memory, shell);
    let like = like_faces(memory, &facts);
    try_all(memory, &facts, &like, &mut found);
    let mut remedies = told(memory, &facts, found);
    settle(memory, &mut remedies, &like);
    remedies
}

/// The remedies of a shell that were found, at most six, the first one first. They are only proposed: whether a change fits and
/// passes is judged apart. The rows of the shell are given, and the vertices of the shells before this one lie below a number.
pub fn search(
    alloc: Global,
    solid: &Solid,
    known: &Known,
    shell: ShellAt,
    rows: &Rows,
    below: usize,
) -> Result<Vec<Remedy>, NoMemory> {
    let mut memory = Memory::new(alloc);
    let remedies = remedies_of(&mut memory, solid, known, shell, rows, below);
    if memory.has_run_out() {
        return Err(NoMemory);
    }
    Ok(remedies)
}
