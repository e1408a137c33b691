//! Sets that are joined, each member on one of two sides.

use crate::cells::{NONE, at, is_set, put, set};
use crate::memory::Memory;

/// The least member of a set, and whether a member is on its other side.
#[derive(Clone, Copy)]
pub struct Found {
    pub least: u32,
    pub other: bool,
}

/// Sets of numbers.
#[derive(Drop)]
pub struct Sets {
    parents: Vec<u32>,
    // Whether each is on the other side than its parent.
    other: Vec<bool>,
}

fn singles(memory: &mut Memory, count: u32) -> Vec<u32> {
    let mut out = memory.filled(count, 0);
    'numbers: for i in 0..count {
        put(&mut out, i, i);
    }
    out
}

impl Sets {
    /// Each number below the count alone.
    pub fn new(memory: &mut Memory, count: u32) -> Sets {
        Sets {
            parents: singles(memory, count),
            other: memory.unset(count),
        }
    }

    /// The set of a number.
    pub fn find(&mut self, n: u32) -> Found {
        let mut least = n;
        let mut other = false;
        'up: for _ in 0..self.parents.len() {
            let parent = at(&self.parents, least);
            if parent == least || parent == NONE {
                break 'up;
            }
            // The way up is halved as it is gone.
            let above = at(&self.parents, parent);
            let flip = is_set(&self.other, least) != is_set(&self.other, parent);
            put(&mut self.parents, least, above);
            set(&mut self.other, least, flip);
            other = other != flip;
            least = above;
        }
        Found { least, other }
    }

    /// Joins the sets of two numbers, which are on two sides then or on one. False where they are in one set, and not so.
    pub fn join(&mut self, a: u32, b: u32, apart: bool) -> bool {
        let a = self.find(a);
        let b = self.find(b);
        let differ = a.other != b.other;
        if a.least == b.least {
            return differ == apart;
        }
        let least = a.least.min(b.least);
        let most = a.least.max(b.least);
        put(&mut self.parents, most, least);
        set(&mut self.other, most, differ != apart);
        true
    }
}
