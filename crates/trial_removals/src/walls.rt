//! Clean patches, alone and one after another.

use crate::crowding::{Crowd, NO_CROWD, leaves_well};
use crate::patches::Patches;
use shell_trial::{Key, Memory, NONE, at, is_set, item_at, key_of, put, set, short};

/// The clean patches, those of fewest faces first, of equal ones the last first.
pub(crate) fn ordered(memory: &mut Memory, patches: &Patches, clean: &[bool]) -> Vec<u32> {
    let mut keys: Vec<Key> = memory.list();
    'patches: for i in 0..clean.len() {
        let i = short(i);
        if is_set(clean, i) {
            memory.add(&mut keys, key_of(at(&patches.patch_faces, i), NONE - i, i));
        }
    }
    memory.sort(&mut keys);
    let mut out = memory.list();
    'keys: for i in 0..keys.len() {
        memory.add(&mut out, keys[i].place);
    }
    out
}

// Where the crowded edges of each patch begin.
fn begins(memory: &mut Memory, crowds: &[Crowd], faces: u32) -> Vec<u32> {
    let mut out = memory.filled(faces, NONE);
    'crowds: for i in 0..crowds.len() {
        let patch = crowds[i].patch;
        if at(&out, patch) == NONE {
            put(&mut out, patch, short(i));
        }
    }
    out
}

// Whether each crowded edge of a patch has more than two rows left, and none or two without it.
fn can_go(crowds: &[Crowd], left: &[u32], patch: u32, begin: u32) -> bool {
    'crowds: for i in 0..crowds.len() {
        let crowd = item_at(crowds, begin.saturating_add(short(i)), NO_CROWD);
        if crowd.patch != patch {
            return true;
        }
        let rows = at(left, crowd.edge);
        if rows <= 2 || !leaves_well(rows, crowd.own) {
            return false;
        }
    }
    true
}

fn take(crowds: &[Crowd], left: &mut [u32], patch: u32, begin: u32) {
    'crowds: for i in 0..crowds.len() {
        let crowd = item_at(crowds, begin.saturating_add(short(i)), NO_CROWD);
        if crowd.patch != patch {
            break 'crowds;
        }
        let rows = at(left, crowd.edge);
        put(left, crowd.edge, rows.saturating_sub(crowd.own));
    }
}

fn some_crowded(crowds: &[Crowd], left: &[u32]) -> bool {
    'crowds: for i in 0..crowds.len() {
        if at(left, crowds[i].edge) > 2 {
            return true;
        }
    }
    false
}

/// The patches that can go one after the other in this order; none of them, if an edge stays crowded.
pub(crate) fn walls(
    memory: &mut Memory,
    crowds: &[Crowd],
    order: &[u32],
    edges: u32,
    faces: u32,
) -> Vec<bool> {
    let begins = begins(memory, crowds, faces);
    let mut left = memory.filled(edges, 0);
    'crowds: for i in 0..crowds.len() {
        put(&mut left, crowds[i].edge, crowds[i].all);
    }
    let mut out = memory.unset(faces);
    'order: for i in 0..order.len() {
        let patch = order[i];
        let begin = at(&begins, patch);
        if can_go(crowds, &left, patch, begin) {
            take(crowds, &mut left, patch, begin);
            set(&mut out, patch, true);
        }
    }
    if some_crowded(crowds, &left) {
        return memory.unset(faces);
    }
    out
}
