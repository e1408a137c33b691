//! Keys, and the numbers of the classes of equal ones.

use crate::cells::{item_at, put};
use crate::memory::Memory;

/// Four numbers that are compared, and whose they are.
#[derive(Clone, Copy, PartialEq, Eq, PartialOrd, Ord)]
pub struct Key {
    pub first: u32,
    pub second: u32,
    pub third: u32,
    pub fourth: u32,
    /// The place of what has this key.
    pub place: u32,
}

/// A key of two numbers.
pub fn key_of(first: u32, second: u32, place: u32) -> Key {
    Key {
        first,
        second,
        third: 0,
        fourth: 0,
        place,
    }
}

fn are_alike(a: Key, b: Key) -> bool {
    a.first == b.first && a.second == b.second && a.third == b.third && a.fourth == b.fourth
}

/// For each place below the count the number of the class of its key, from 0 by rising keys; 0 where there is none.
pub fn classes_of(memory: &mut Memory, keys: Vec<Key>, count: u32) -> Vec<u32> {
    let mut keys = keys;
    memory.sort(&mut keys);
    let mut out = memory.filled(count, 0);
    let keys = keys.as_slice();
    let mut before = item_at(keys, 0, key_of(0, 0, 0));
    let mut class = 0u32;
    'keys: for i in 0..keys.len() {
        let key = keys[i];
        if !are_alike(before, key) {
            class = class.saturating_add(1);
        }
        before = key;
        put(&mut out, key.place, class);
    }
    out
}
