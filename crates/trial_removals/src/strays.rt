//! The sets of faces that may be too many.

use crate::crowding::{Crowd, clean_patches, crowds_of};
use crate::patches::{Patches, faces_of, patches_of, rows_among};
use crate::removing::{Removal, add_new};
use crate::sheets::{patches_in, sheets_of};
use crate::walls::{ordered, walls};
use shell_trial::{Facts, Memory, NONE, Table, Trial, at, is_set, set, short};

const MOST: usize = 6;

// Puts a removal at the end, if it has faces, not all, and isn't there yet.
fn add(memory: &mut Memory, out: &mut Vec<Removal>, patches: &Patches, faces: Vec<u32>, cost: u32) {
    let count = short(faces.len());
    if count == 0 || count >= patches.faces {
        return;
    }
    let rows = rows_among(patches, &faces);
    let more = if rows.saturating_mul(2) > patches.rows {
        8
    } else {
        0
    };
    add_new(
        memory,
        out,
        Removal {
            faces,
            cost: cost.saturating_add(more),
        },
    )
}

// Puts a removal at the end that costs so much and 1 for each face.
fn add_each(
    memory: &mut Memory,
    out: &mut Vec<Removal>,
    patches: &Patches,
    faces: Vec<u32>,
    cost: u32,
) {
    let count = short(faces.len());
    add(memory, out, patches, faces, cost.saturating_add(count))
}

// The part of the most faces, of equal ones the first.
fn largest(patches: &Patches) -> u32 {
    let mut best = NONE;
    let mut most = 0u32;
    'parts: for i in 0..patches.part_faces.len() {
        let count = patches.part_faces[i];
        if count > most {
            most = count;
            best = short(i);
        }
    }
    best
}

// The parts with a free edge, and how many there are.
fn open_parts(memory: &mut Memory, patches: &Patches) -> (Vec<bool>, u32) {
    let count = short(patches.part_free.len());
    let mut out = memory.unset(count);
    let mut some = 0u32;
    'parts: for i in 0..count {
        let open = at(&patches.part_free, i) != 0;
        set(&mut out, i, open);
        if open {
            some = some.saturating_add(1);
        }
    }
    (out, some)
}

fn have_one_face(patches: &Patches, parts: &[bool]) -> bool {
    'parts: for i in 0..parts.len() {
        if parts[i] && at(&patches.part_faces, short(i)) != 1 {
            return false;
        }
    }
    true
}

fn add_apart(memory: &mut Memory, out: &mut Vec<Removal>, patches: &Patches) {
    let (mut open, some) = open_parts(memory, patches);
    if some >= patches.part_count {
        let largest = largest(patches);
        if at(&patches.part_faces, largest) < 2 {
            return;
        }
        set(&mut open, largest, false);
    }
    let faces = faces_of(memory, &patches.part, &open);
    if have_one_face(patches, &open) {
        return add(memory, out, patches, faces, 2);
    }
    add_each(memory, out, patches, faces, 6)
}

// The clean patches with a free edge.
fn fins_of(memory: &mut Memory, patches: &Patches, clean: &[bool]) -> Vec<bool> {
    let count = short(clean.len());
    let mut out = memory.unset(count);
    'patches: for i in 0..count {
        set(
            &mut out,
            i,
            is_set(clean, i) && at(&patches.patch_free, i) != 0,
        );
    }
    out
}

// The parts with a free edge that isn't one of these patches.
fn other_open(
    memory: &mut Memory,
    facts: &Facts,
    table: &Table,
    patches: &Patches,
    fins: &[bool],
) -> Vec<bool> {
    let mut out = memory.unset(short(patches.part.len()));
    'rows: for i in 0..table.rows.len() {
        let i = short(i);
        let face = at(&facts.face_of, i);
        if table.is_free(i) && !is_set(fins, at(&patches.patch, face)) {
            set(&mut out, at(&patches.part, face), true);
        }
    }
    out
}

fn count_of(marks: &[bool]) -> u32 {
    let mut count = 0u32;
    'marks: for i in 0..marks.len() {
        if marks[i] {
            count = count.saturating_add(1);
        }
    }
    count
}

// The faces of these patches and of these parts; none, if one face is of both, or if there aren't both.
fn faces_of_both(memory: &mut Memory, patches: &Patches, fins: &[bool], open: &[bool]) -> Vec<u32> {
    let mut out = memory.list();
    'faces: for i in 0..patches.part.len() {
        let i = short(i);
        let fin = is_set(fins, at(&patches.patch, i));
        let apart = is_set(open, at(&patches.part, i));
        if fin && apart {
            return memory.list();
        }
        if fin || apart {
            memory.add(&mut out, i);
        }
    }
    out
}

fn add_fins(
    memory: &mut Memory,
    facts: &Facts,
    table: &Table,
    patches: &Patches,
    clean: &[bool],
    out: &mut Vec<Removal>,
) {
    let fins = fins_of(memory, patches, clean);
    let faces = faces_of(memory, &patches.patch, &fins);
    add_each(memory, out, patches, faces, 2);
    let open = other_open(memory, facts, table, patches, &fins);
    let parts = count_of(&open);
    if parts > 0 && parts < patches.part_count && count_of(&fins) > 0 {
        let both = faces_of_both(memory, patches, &fins, &open);
        add_each(memory, out, patches, both, 4);
    }
}

fn add_walls(memory: &mut Memory, patches: &Patches, order: &[u32], out: &mut Vec<Removal>) {
    'order: for i in 0..order.len() {
        if i >= MOST {
            break 'order;
        }
        let mut one = memory.unset(short(patches.patch.len()));
        set(&mut one, order[i], true);
        let faces = faces_of(memory, &patches.patch, &one);
        add_each(memory, out, patches, faces, 3);
    }
}

fn add_sheets(memory: &mut Memory, patches: &Patches, crowds: &[Crowd], out: &mut Vec<Removal>) {
    let sheets = sheets_of(memory, patches, crowds, short(patches.patch.len()));
    'order: for i in 0..sheets.order.len() {
        if i >= MOST {
            break 'order;
        }
        let chosen = patches_in(memory, &sheets, sheets.order[i]);
        let faces = faces_of(memory, &patches.patch, &chosen);
        add_each(memory, out, patches, faces, 3);
    }
}

/// The sets of faces that may be too many, each of some faces but not of all, in the order in which they are tried.
pub fn removals(memory: &mut Memory, facts: &Facts, trial: &Trial, table: &Table) -> Vec<Removal> {
    let patches = patches_of(memory, facts, trial, table);
    let mut out = memory.list();
    add_apart(memory, &mut out, &patches);
    if !table.crowded {
        return out;
    }
    let crowds = crowds_of(memory, facts, table, &patches);
    let faces = short(facts.faces.len());
    let clean = clean_patches(memory, &crowds, faces);
    add_fins(memory, facts, table, &patches, &clean, &mut out);
    let order = ordered(memory, &patches, &clean);
    add_walls(memory, &patches, &order, &mut out);
    let all = walls(memory, &crowds, &order, short(trial.edges.len()), faces);
    let faces = faces_of(memory, &patches.patch, &all);
    add_each(memory, &mut out, &patches, faces, 4);
    add_sheets(memory, &patches, &crowds, &mut out);
    out
}
