//! The parts and the patches of a shell.

use shell_trial::{Facts, Memory, NONE, Sets, Table, Trial, at, is_set, item_at, more, put, short};
use trial_steps::{By, sets_of};

/// The parts and the patches of a shell, each by its first face.
#[derive(Drop)]
pub(crate) struct Patches {
    /// How many faces are kept.
    pub(crate) faces: u32,
    pub(crate) rows: u32,
    pub(crate) part_count: u32,
    /// Of each face that is kept.
    pub(crate) part: Vec<u32>,
    pub(crate) patch: Vec<u32>,
    /// How many faces each has.
    pub(crate) part_faces: Vec<u32>,
    pub(crate) patch_faces: Vec<u32>,
    /// How many free edges each has.
    pub(crate) part_free: Vec<u32>,
    pub(crate) patch_free: Vec<u32>,
    /// How many rows each face has.
    pub(crate) face_rows: Vec<u32>,
}

// Of each face that is kept the first face of its set.
fn leasts(memory: &mut Memory, trial: &Trial, sets: &mut Sets) -> Vec<u32> {
    let count = short(trial.pieces.len());
    let mut out = memory.filled(count, NONE);
    'faces: for i in 0..count {
        if at(&trial.pieces, i) != NONE {
            put(&mut out, i, sets.find(i).least);
        }
    }
    out
}

fn counts(memory: &mut Memory, leasts: &[u32]) -> Vec<u32> {
    let mut out = memory.filled(short(leasts.len()), 0);
    'faces: for i in 0..leasts.len() {
        more(&mut out, leasts[i]);
    }
    out
}

/// How many free edges each face has.
pub(crate) fn free_edges(memory: &mut Memory, facts: &Facts, table: &Table) -> Vec<u32> {
    let mut out = memory.filled(short(facts.faces.len()), 0);
    'edges: for edge in 0..short(table.count.len()) {
        if table.rows_on(edge) == 1 {
            more(&mut out, at(&facts.face_of, at(&table.first, edge)));
        }
    }
    out
}

fn rows_of_faces(memory: &mut Memory, facts: &Facts, table: &Table) -> Vec<u32> {
    let mut out = memory.filled(short(facts.faces.len()), 0);
    'rows: for i in 0..table.rows.len() {
        let i = short(i);
        if table.row(i).edge != NONE {
            more(&mut out, at(&facts.face_of, i));
        }
    }
    out
}

fn sum_of(numbers: &[u32]) -> u32 {
    let mut sum = 0u32;
    'numbers: for i in 0..numbers.len() {
        sum = sum.saturating_add(numbers[i]);
    }
    sum
}

fn some_of(numbers: &[u32]) -> u32 {
    let mut count = 0u32;
    'numbers: for i in 0..numbers.len() {
        if numbers[i] != 0 {
            count = count.saturating_add(1);
        }
    }
    count
}

// The sets of faces that edges with two rows join.
fn patches_among(
    memory: &mut Memory,
    facts: &Facts,
    trial: &Trial,
    table: &Table,
    parts: &[u32],
) -> Vec<u32> {
    if !table.crowded {
        return memory.copied(parts);
    }
    let mut pairs = sets_of(memory, facts, table, By::Pairs);
    leasts(memory, trial, &mut pairs)
}

// How many free edges each set of faces has, by how many each face has.
fn free_in(memory: &mut Memory, leasts: &[u32], free: &[u32]) -> Vec<u32> {
    let mut out = memory.filled(short(leasts.len()), 0);
    'faces: for i in 0..leasts.len() {
        let i = short(i);
        let least = at(leasts, i);
        let sum = item_at(&out, least, 0).saturating_add(item_at(free, i, 0));
        put(&mut out, least, sum);
    }
    out
}

pub(crate) fn patches_of(
    memory: &mut Memory,
    facts: &Facts,
    trial: &Trial,
    table: &Table,
) -> Patches {
    let mut parts = sets_of(memory, facts, table, By::All);
    let part = leasts(memory, trial, &mut parts);
    let patch = patches_among(memory, facts, trial, table, &part);
    let part_faces = counts(memory, &part);
    let patch_faces = counts(memory, &patch);
    let free = free_edges(memory, facts, table);
    let part_free = free_in(memory, &part, &free);
    let patch_free = free_in(memory, &patch, &free);
    let face_rows = rows_of_faces(memory, facts, table);
    Patches {
        faces: sum_of(&part_faces),
        rows: sum_of(&face_rows),
        part_count: some_of(&part_faces),
        part,
        patch,
        part_faces,
        patch_faces,
        part_free,
        patch_free,
        face_rows,
    }
}

/// The faces of these parts, or of these patches.
pub(crate) fn faces_of(memory: &mut Memory, leasts: &[u32], chosen: &[bool]) -> Vec<u32> {
    let mut out = memory.list();
    'faces: for i in 0..leasts.len() {
        if is_set(chosen, leasts[i]) {
            memory.add(&mut out, short(i));
        }
    }
    out
}

/// How many rows faces have.
pub(crate) fn rows_among(patches: &Patches, faces: &[u32]) -> u32 {
    let mut sum = 0u32;
    'faces: for i in 0..faces.len() {
        sum = sum.saturating_add(at(&patches.face_rows, faces[i]));
    }
    sum
}
