//! What the uses of a shell are after a trial.

use crate::moving::{Moves, move_of};
use crate::naming::{edge_name, vertex_name};
use crate::views::Views;
use iges_base::ItemList;
use shell_change::{EdgeNow, LoopNow, UseNow};
use shell_trial::{Facts, LoopFact, Memory, NONE, Trial, TrialUse, at, is_set};

const NO_USE: TrialUse = TrialUse {
    on_edge: false,
    item: NONE,
    along: true,
};

fn old_use(facts: &Facts, i: u32) -> TrialUse {
    shell_trial::item_at(&facts.uses, i, NO_USE)
}

fn opposite(item: TrialUse) -> TrialUse {
    TrialUse {
        along: item.along != item.on_edge,
        ..item
    }
}

// The t-th use of a loop as it was, if the loop is reversed or isn't.
fn use_before(facts: &Facts, walk: LoopFact, t: u32, reversed: bool) -> TrialUse {
    if !reversed {
        return old_use(facts, walk.first_use.saturating_add(t));
    }
    let place = walk.uses.saturating_sub(1).saturating_sub(t);
    opposite(old_use(facts, walk.first_use.saturating_add(place)))
}

fn are_same(a: TrialUse, b: TrialUse) -> bool {
    a.on_edge == b.on_edge && a.item == b.item && a.along == b.along
}

// Whether reversing changes a loop.
fn is_changed_by_reversing(facts: &Facts, walk: LoopFact) -> bool {
    'uses: for t in 0..walk.uses {
        let plain = use_before(facts, walk, t, false);
        if !are_same(plain, use_before(facts, walk, t, true)) {
            return true;
        }
    }
    false
}

/// Whether a loop is reversed by a trial, so that its uses change.
pub(crate) fn is_reversed(facts: &Facts, trial: &Trial, number: u32) -> bool {
    is_set(&trial.reversed, number) && is_changed_by_reversing(facts, facts.walk(number))
}

fn place_of(views: Views<'_>, vertex: u32) -> u32 {
    views.facts.vertex(views.trial.vertex(vertex).like).place
}

// Whether a use of an edge runs the other way now.
fn is_turned(views: Views<'_>, before: TrialUse, now: TrialUse) -> bool {
    let new = views.trial.edge(now.item);
    let changed = now.along != before.along;
    if !changed && new.like == before.item {
        return false;
    }
    let old = views.facts.edge(before.item);
    let at_one = old.from_place == old.to_place
        || place_of(views, new.from) == place_of(views, new.to);
    if at_one {
        let same = new.like == before.item || views.facts.edge(new.like).record == old.record;
        return changed && !same;
    }
    let against = new.like != before.item && is_set(&views.sewn.opposite, before.item);
    changed != against
}

fn seam_of(views: Views<'_>, before: TrialUse, now: TrialUse) -> Option<u32> {
    if views.trial.edge(now.item).like == before.item {
        return None;
    }
    Some(at(&views.seams.numbers, before.item))
}

fn edge_use(
    memory: &mut Memory,
    views: Views<'_>,
    moves: &mut Moves,
    before: TrialUse,
    now: TrialUse,
) -> UseNow {
    let facts = views.facts;
    let turned = is_turned(views, before, now);
    let old = facts.edge(before.item);
    let (start, end) = if before.along != turned {
        (old.from, old.to)
    } else {
        (old.to, old.from)
    };
    let start_by = move_of(memory, views, moves, start);
    let end_by = move_of(memory, views, moves, end);
    UseNow::OnEdge(EdgeNow {
        edge: edge_name(facts, views.trial, views.names, now.item),
        along: now.along,
        turned,
        seam: seam_of(views, before, now),
        start_by,
        end_by,
    })
}

fn use_now(
    memory: &mut Memory,
    views: Views<'_>,
    moves: &mut Moves,
    before: TrialUse,
    now: TrialUse,
) -> UseNow {
    if now.on_edge {
        return edge_use(memory, views, moves, before, now);
    }
    let by = move_of(memory, views, moves, before.item);
    UseNow::AtVertex {
        vertex: vertex_name(views.facts, views.trial, views.names, now.item),
        by,
    }
}

/// What a loop is after a trial.
pub(crate) fn loop_now(
    memory: &mut Memory,
    views: Views<'_>,
    moves: &mut Moves,
    number: u32,
) -> LoopNow {
    let walk = views.facts.walk(number);
    let reversed = is_reversed(views.facts, views.trial, number);
    let mut uses = memory.items_room(walk.uses as usize);
    'uses: for t in 0..walk.uses {
        let before = use_before(views.facts, walk, t, reversed);
        let now = views.trial.item(walk.first_use.saturating_add(t));
        let told = use_now(memory, views, moves, before, now);
        memory.add_item(&mut uses, told);
    }
    LoopNow { reversed, uses }
}
