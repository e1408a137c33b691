//! Whether two changes of one shell do the same.

use crate::seaming::Seams;
use crate::telling::is_reversed;
use shell_change::{Change, Fate, LoopNow, Seam, Told};
use shell_trial::{Facts, Memory, NONE, Trial, at, is_set, short};

fn loops_are_same(facts: &Facts, trial: &Trial, number: u32, loops: &[LoopNow]) -> bool {
    let first = facts.face(number).first_loop;
    'loops: for i in 0..loops.len() {
        if is_reversed(facts, trial, first.saturating_add(short(i))) != loops[i].reversed {
            return false;
        }
    }
    true
}

fn is_fate(facts: &Facts, trial: &Trial, number: u32, fate: &Fate) -> bool {
    let piece = at(&trial.pieces, number);
    match fate {
        Fate::Removed => piece == NONE,
        Fate::Kept(face) => {
            face.piece == piece
                && face.flag == is_set(&trial.flags, number)
                && loops_are_same(facts, trial, number, face.loops.as_slice())
        }
    }
}

fn are_fates(facts: &Facts, trial: &Trial, fates: &[Fate]) -> bool {
    'faces: for i in 0..fates.len() {
        if !is_fate(facts, trial, short(i), &fates[i]) {
            return false;
        }
    }
    true
}

fn count_told(seams: &[Seam], told: Told) -> u32 {
    let mut count = 0u32;
    'seams: for i in 0..seams.len() {
        if seams[i].told == told {
            count = count.saturating_add(1);
        }
    }
    count
}

fn seams_are_alike(a: &[Seam], b: &[Seam]) -> bool {
    count_told(a, Told::Sure) == count_told(b, Told::Sure)
        && count_told(a, Told::Places) == count_told(b, Told::Places)
        && count_told(a, Told::Curve) == count_told(b, Told::Curve)
}

/// Whether a trial removes the same faces as a change of the shell, leaves the same flags, pieces and reversed loops, and has as
/// many seams of each kind and as many rims.
pub fn is_alike(facts: &Facts, trial: &Trial, seams: &Seams, change: &Change) -> bool {
    trial.rims.len() == change.rims.len()
        && seams_are_alike(seams.list.as_slice(), change.seams.as_slice())
        && are_fates(facts, trial, change.faces.as_slice())
}

fn loops_are_alike(facts: &Facts, a: &Trial, b: &Trial, number: u32) -> bool {
    let face = facts.face(number);
    'loops: for i in 0..face.loops {
        let i = face.first_loop.saturating_add(i);
        if is_reversed(facts, a, i) != is_reversed(facts, b, i) {
            return false;
        }
    }
    true
}

fn have_one_fate(facts: &Facts, a: &Trial, b: &Trial, number: u32) -> bool {
    let piece = at(&a.pieces, number);
    if piece == NONE || piece != at(&b.pieces, number) {
        return piece == at(&b.pieces, number);
    }
    is_set(&a.flags, number) == is_set(&b.flags, number) && loops_are_alike(facts, a, b, number)
}

/// The same of two trials of a shell, of which the other one sewed nothing.
pub fn are_alike(facts: &Facts, trial: &Trial, seams: &Seams, other: &Trial) -> bool {
    if trial.rims.len() != other.rims.len() || !seams_are_alike(seams.list.as_slice(), &[]) {
        return false;
    }
    'faces: for i in 0..facts.faces.len() {
        if !have_one_fate(facts, trial, other, short(i)) {
            return false;
        }
    }
    true
}

// For each face that is removed the first one that is like it, by rising number.
fn removed(memory: &mut Memory, change: &Change, like: &[u32]) -> Vec<u32> {
    let faces = change.faces.as_slice();
    let mut out = memory.list();
    'faces: for i in 0..faces.len() {
        if i < like.len() {
            if let Fate::Removed = &faces[i] {
                memory.add(&mut out, like[i]);
            }
        }
    }
    memory.sort(&mut out);
    out
}

/// Whether two changes remove the same faces, where those that are like each other count as one.
pub fn removed_alike(memory: &mut Memory, a: &Change, b: &Change, like: &[u32]) -> bool {
    let a = removed(memory, a, like);
    let b = removed(memory, b, like);
    if a.len() != b.len() {
        return false;
    }
    let mut same = true;
    'faces: for i in 0..a.len() {
        let i = short(i);
        same = same && at(&a, i) == at(&b, i);
    }
    same
}
