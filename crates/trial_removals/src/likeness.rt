//! Faces that are like each other by their records.

use shell_trial::{
    Entry, Facts, Memory, NONE, TrialUse, at, classes_of, is_set, key_of, list_classes, put, set,
    short,
};

// A number for what a use is, whatever its edge or vertex is called: edges that are sure to be one are the same.
fn use_class(facts: &Facts, item: TrialUse) -> u32 {
    if !item.on_edge {
        let edges = short(facts.edges.len());
        let place = facts.vertex(item.item).place;
        return edges.saturating_mul(2).saturating_add(place);
    }
    let edge = facts.edge(item.item);
    // A line has no direction of its own.
    let falls = edge.is_line && edge.from_place > edge.to_place;
    let class = at(&facts.sure, item.item);
    class
        .saturating_mul(2)
        .saturating_add(u32::from(item.along != falls))
}

fn use_entries(memory: &mut Memory, facts: &Facts) -> Vec<Entry> {
    let mut out = memory.room(facts.uses.len());
    'uses: for i in 0..facts.uses.len() {
        memory.add(
            &mut out,
            Entry {
                owner: at(&facts.face_of, short(i)),
                number: use_class(facts, facts.uses[i]),
            },
        );
    }
    out
}

fn with_edges(memory: &mut Memory, facts: &Facts) -> Vec<bool> {
    let mut out = memory.unset(short(facts.faces.len()));
    'uses: for i in 0..facts.uses.len() {
        if facts.uses[i].on_edge {
            set(&mut out, at(&facts.face_of, short(i)), true);
        }
    }
    out
}

fn face_classes(memory: &mut Memory, facts: &Facts, lists: &[u32]) -> Vec<u32> {
    let count = short(facts.faces.len());
    let mut keys = memory.room(facts.faces.len());
    'faces: for i in 0..count {
        memory.add(&mut keys, key_of(facts.face(i).surface, at(lists, i), i));
    }
    classes_of(memory, keys, count)
}

/// Of each face the first one that is like it, which may be itself.
pub fn like_faces(memory: &mut Memory, facts: &Facts) -> Vec<u32> {
    let count = short(facts.faces.len());
    let entries = use_entries(memory, facts);
    let lists = list_classes(memory, entries, count);
    let classes = face_classes(memory, facts, &lists);
    let edged = with_edges(memory, facts);
    let mut first = memory.filled(count, NONE);
    let mut out = memory.filled(count, NONE);
    'faces: for i in 0..count {
        let class = at(&classes, i);
        if !is_set(&edged, i) {
            put(&mut out, i, i);
        } else {
            if at(&first, class) == NONE {
                put(&mut first, class, i);
            }
            put(&mut out, i, at(&first, class));
        }
    }
    out
}
