//! Patches that have the same crowded edges.

use crate::crowding::{Crowd, leaves_well};
use crate::patches::Patches;
use shell_trial::{
    Entry, Key, Memory, NONE, at, is_set, item_at, key_of, list_classes, more, put, set, short,
};

/// Patches by the class of their crowded edges.
#[derive(Drop)]
pub(crate) struct Sheets {
    /// Of each patch its class; `NONE` if it has no crowded edge.
    pub(crate) class: Vec<u32>,
    /// The classes that may go, in order.
    pub(crate) order: Vec<u32>,
}

fn classes(memory: &mut Memory, crowds: &[Crowd], faces: u32) -> Vec<u32> {
    let mut entries = memory.room(crowds.len());
    'crowds: for i in 0..crowds.len() {
        memory.add(
            &mut entries,
            Entry {
                owner: crowds[i].patch,
                number: crowds[i].edge,
            },
        );
    }
    list_classes(memory, entries, faces)
}

// The crowds by class and edge; each key ends with a place of the crowds.
fn by_class(memory: &mut Memory, crowds: &[Crowd], class: &[u32]) -> Vec<Key> {
    let mut keys: Vec<Key> = memory.room(crowds.len());
    'crowds: for i in 0..crowds.len() {
        let crowd = crowds[i];
        memory.add(
            &mut keys,
            key_of(at(class, crowd.patch), crowd.edge, short(i)),
        );
    }
    memory.sort(&mut keys);
    keys
}

const NO_KEY: Key = Key {
    first: NONE,
    second: NONE,
    third: NONE,
    fourth: NONE,
    place: NONE,
};

// The classes of which all patches together leave some edge with other than none or two rows.
fn bad_classes(memory: &mut Memory, crowds: &[Crowd], keys: &[Key], faces: u32) -> Vec<bool> {
    let mut bad = memory.unset(faces);
    let mut own = 0u32;
    'keys: for i in 0..keys.len() {
        let key = keys[i];
        let next = item_at(keys, short(i).saturating_add(1), NO_KEY);
        let place = key.place as usize;
        if place < crowds.len() {
            let crowd = crowds[place];
            own = own.saturating_add(crowd.own);
            if next.first != key.first || next.second != key.second {
                if !leaves_well(crowd.all, own) {
                    set(&mut bad, key.first, true);
                }
                own = 0;
            }
        }
    }
    bad
}

// The classes of two patches or more that aren't bad, those of fewest faces first.
fn good_classes(memory: &mut Memory, patches: &Patches, class: &[u32], bad: &[bool]) -> Vec<u32> {
    let count = short(class.len());
    let mut members = memory.filled(count, 0);
    let mut sizes = memory.filled(count, 0);
    let mut firsts = memory.filled(count, NONE);
    'patches: for patch in 0..count {
        let own = at(class, patch);
        if own != NONE {
            more(&mut members, own);
            let size = at(&sizes, own).saturating_add(at(&patches.patch_faces, patch));
            put(&mut sizes, own, size);
            let first = at(&firsts, own).min(patch);
            put(&mut firsts, own, first);
        }
    }
    let mut keys: Vec<Key> = memory.list();
    'classes: for own in 0..count {
        if item_at(&members, own, 0) > 1 && !is_set(bad, own) {
            memory.add(&mut keys, key_of(at(&sizes, own), at(&firsts, own), own));
        }
    }
    memory.sort(&mut keys);
    let mut out = memory.list();
    'keys: for i in 0..keys.len() {
        memory.add(&mut out, keys[i].place);
    }
    out
}

/// The sets of patches with the same crowded edges that may go together.
pub(crate) fn sheets_of(
    memory: &mut Memory,
    patches: &Patches,
    crowds: &[Crowd],
    faces: u32,
) -> Sheets {
    let class = classes(memory, crowds, faces);
    let keys = by_class(memory, crowds, &class);
    let bad = bad_classes(memory, crowds, &keys, faces);
    let order = good_classes(memory, patches, &class, &bad);
    Sheets { class, order }
}

/// The patches of a class.
pub(crate) fn patches_in(memory: &mut Memory, sheets: &Sheets, wanted: u32) -> Vec<bool> {
    let count = short(sheets.class.len());
    let mut out = memory.unset(count);
    'patches: for patch in 0..count {
        set(&mut out, patch, at(&sheets.class, patch) == wanted);
    }
    out
}
