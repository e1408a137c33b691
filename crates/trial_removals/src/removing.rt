//! Faces that are removed.

use shell_trial::{Memory, NONE, Trial, put};

/// Faces to remove, by rising number, and the cost.
#[derive(Drop)]
pub struct Removal {
    pub faces: Vec<u32>,
    pub cost: u32,
}

/// Removes faces.
pub fn remove(trial: &mut Trial, removal: &Removal) {
    'faces: for i in 0..removal.faces.len() {
        put(&mut trial.pieces, removal.faces[i], NONE);
    }
    trial.pay(removal.cost);
}

fn are_same(a: &[u32], b: &[u32]) -> bool {
    if a.len() != b.len() {
        return false;
    }
    'items: for i in 0..a.len() {
        if a[i] != b[i] {
            return false;
        }
    }
    true
}

/// Puts a removal at the end, if these faces aren't there yet.
pub(crate) fn add_new(memory: &mut Memory, out: &mut Vec<Removal>, removal: Removal) {
    'removals: for i in 0..out.len() {
        if are_same(&out[i].faces, &removal.faces) {
            return;
        }
    }
    memory.add(out, removal);
}
