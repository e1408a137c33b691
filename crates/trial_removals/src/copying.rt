//! Faces that are there twice.

use crate::patches::free_edges;
use crate::removing::{Removal, add_new};
use shell_trial::{Facts, Memory, NONE, Table, at, put, short};

// Of each set of like faces, at its first face, the one with the fewest free edges; of equal ones the first or the last.
fn best(memory: &mut Memory, like: &[u32], free: &[u32], last: bool) -> Vec<u32> {
    let mut out = memory.filled(short(like.len()), NONE);
    'faces: for i in 0..like.len() {
        let i = short(i);
        let first = at(like, i);
        let kept = at(&out, first);
        let fewer = at(free, i) < at(free, kept);
        let equal = at(free, i) == at(free, kept);
        if kept == NONE || fewer || equal && last {
            put(&mut out, first, i);
        }
    }
    out
}

fn others(memory: &mut Memory, like: &[u32], kept: &[u32]) -> Vec<u32> {
    let mut out = memory.list();
    'faces: for i in 0..like.len() {
        let i = short(i);
        if at(kept, at(like, i)) != i {
            memory.add(&mut out, i);
        }
    }
    out
}

/// Of each set of like faces all but the one with the fewest free edges; of equal ones the first is kept, or the last. At most
/// two removals, each of some faces.
pub fn copies(memory: &mut Memory, facts: &Facts, table: &Table, like: &[u32]) -> Vec<Removal> {
    let free = free_edges(memory, facts, table);
    let mut out = memory.list();
    'ways: for way in 0..2 {
        let kept = best(memory, like, &free, way == 1);
        let faces = others(memory, like, &kept);
        if !faces.is_empty() {
            add_new(memory, &mut out, Removal { faces, cost: 1 });
        }
    }
    out
}
