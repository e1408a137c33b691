//! Which owners have equal lists of numbers, whatever their order.

use crate::cells::{NONE, item_at, put, short};
use crate::classes::{Key, classes_of, key_of};
use crate::memory::Memory;

/// A number that an owner has.
#[derive(Clone, Copy, PartialEq, Eq, PartialOrd, Ord)]
pub struct Entry {
    pub owner: u32,
    pub number: u32,
}

const NO_ENTRY: Entry = Entry {
    owner: NONE,
    number: NONE,
};

// Each two entries of one owner, one after the other, as a key; the last one of an odd number alone.
fn pairs(memory: &mut Memory, entries: &[Entry]) -> Vec<Key> {
    let mut out = memory.room(entries.len());
    let mut count = 0u32;
    let mut taken = false;
    'entries: for i in 0..entries.len() {
        if taken {
            taken = false;
            continue 'entries;
        }
        let entry = entries[i];
        let next = item_at(entries, short(i).saturating_add(1), NO_ENTRY);
        taken = next.owner == entry.owner;
        let second = if taken { next.number } else { NONE };
        memory.add(&mut out, key_of(entry.number, second, count));
        count = count.saturating_add(1);
    }
    out
}

// The owners of these pairs, with the numbers of their classes.
fn halved(memory: &mut Memory, entries: &[Entry], classes: &[u32]) -> Vec<Entry> {
    let mut out = memory.room(entries.len());
    let mut count = 0u32;
    let mut taken = false;
    'entries: for i in 0..entries.len() {
        if taken {
            taken = false;
            continue 'entries;
        }
        let owner = entries[i].owner;
        let next = item_at(entries, short(i).saturating_add(1), NO_ENTRY);
        taken = next.owner == owner;
        let number = item_at(classes, count, NONE);
        memory.add(&mut out, Entry { owner, number });
        count = count.saturating_add(1);
    }
    out
}

fn half(memory: &mut Memory, entries: &[Entry]) -> Vec<Entry> {
    let keys = pairs(memory, entries);
    let count = short(keys.len());
    let classes = classes_of(memory, keys, count);
    halved(memory, entries, classes.as_slice())
}

fn numbers(memory: &mut Memory, entries: &[Entry], owners: u32) -> Vec<u32> {
    let mut out = memory.filled(owners, NONE);
    'entries: for i in 0..entries.len() {
        put(&mut out, entries[i].owner, entries[i].number);
    }
    out
}

/// A number for each owner: equal ones where their lists are, taken without order. `NONE` for one that has no number.
pub fn list_classes(memory: &mut Memory, entries: Vec<Entry>, owners: u32) -> Vec<u32> {
    let mut entries = entries;
    memory.sort(&mut entries);
    // Each round halves the lists.
    'rounds: for _ in 0..32 {
        let next = half(memory, entries.as_slice());
        let done = next.len() == entries.len();
        entries = next;
        if done {
            break 'rounds;
        }
    }
    numbers(memory, entries.as_slice(), owners)
}
