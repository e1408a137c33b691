//! The seams of a change.

use iges_base::ItemList;
use shell_change::{Seam, Told};
use shell_trial::{Facts, Memory, NONE, Trial, at, is_set, put, set, short};
use solid_data::EdgeId;
use trial_seams::Sewn;

/// The seams of a change, and the number of each by the edge that is left; none where nothing was sewn.
#[derive(Drop)]
pub struct Seams {
    pub list: ItemList<Seam>,
    pub numbers: Vec<u32>,
}

// Which edges the faces that are kept used.
fn used_before(memory: &mut Memory, facts: &Facts, trial: &Trial) -> Vec<bool> {
    let mut out = memory.unset(short(facts.edges.len()));
    'uses: for i in 0..facts.uses.len() {
        let item = facts.uses[i];
        let kept = at(&trial.pieces, at(&facts.face_of, short(i))) != NONE;
        if kept && item.on_edge {
            set(&mut out, item.item, true);
        }
    }
    out
}

fn are_none(sewn: &Sewn) -> bool {
    sewn.counts.sure == 0 && sewn.counts.ends == 0 && sewn.counts.curve == 0
}

fn no_seams(memory: &Memory) -> Seams {
    Seams {
        list: memory.items(),
        numbers: memory.list(),
    }
}

/// The pairs that were sewn, but of those that aren't told by curves only such that a face that is kept used the edge left.
pub fn seams_of(memory: &mut Memory, facts: &Facts, trial: &Trial, sewn: &Sewn) -> Seams {
    if are_none(sewn) {
        return no_seams(memory);
    }
    let used = used_before(memory, facts, trial);
    let count = short(facts.edges.len());
    let mut list = memory.items();
    let mut numbers = memory.filled(count, NONE);
    'edges: for left in 0..count {
        let taken = at(&sewn.taken, left);
        let told = sewn.told(left);
        if taken != NONE && (is_set(&used, left) || told == Told::Curve) {
            put(&mut numbers, left, short(list.len()));
            memory.add_item(
                &mut list,
                Seam {
                    left: EdgeId(facts.edge(left).number),
                    taken: EdgeId(facts.edge(taken).number),
                    told,
                },
            );
        }
    }
    Seams { list, numbers }
}
