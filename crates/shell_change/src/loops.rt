//! What the loops and the faces of a shell may be after the change.

ghost use Rattle.std.specs.Prelude.{◌≡◌, ◌↔◌, ◌<◌, Bool, true, IsTrue, Some, length, slice_get};
ghost use Rattle.shell_change.specs.Matching.{Matched};
ghost use Rattle.shell_change.specs.UseFits.{UseFits};
ghost use Rattle.shell_change.specs.Fits.{opposite_use, reversed_uses, uses_before, LoopFits, FaceFits};

use crate::change::{Change, Fate, LoopNow, UseNow};
use crate::geometry::Geometry;
use crate::uses::use_fits;
use solid_data::{FaceUse, Loop, LoopUse, Solid, same_flags};

/// The item at a place.
pub fn item_at<T>(items: &[T], i: usize) -> &T
    requires { i < length items.now }
    ensures { slice_get items.now i ≡ Some result.now }
{
    &items[i]
}

fn opposite(item: LoopUse) -> LoopUse
    ensures { result ≡ opposite_use item }
{
    match item {
        LoopUse::EdgeUse { edge, along } => LoopUse::EdgeUse {
            edge,
            along: !along,
        },
        LoopUse::VertexUse { vertex } => LoopUse::VertexUse { vertex },
    }
}

// The i-th use of a loop that is reversed, or isn't.
fn use_before(uses: &[LoopUse], reversed: bool, i: usize) -> LoopUse
    requires { i < length uses.now }
    ensures { slice_get (uses_before uses.now reversed) i ≡ Some result }
{
    if reversed {
        opposite(*item_at(uses, uses.len() - 1 - i))
    } else {
        *item_at(uses, i)
    }
}

fn same_use(a: LoopUse, b: LoopUse) -> bool
    ensures { IsTrue result ↔ (a ≡ b) }
{
    match (a, b) {
        (LoopUse::EdgeUse { edge: e, along: m }, LoopUse::EdgeUse { edge: f, along: n }) => {
            e.0 == f.0 && same_flags(m, n)
        }
        (LoopUse::VertexUse { vertex: v }, LoopUse::VertexUse { vertex: w }) => v.0 == w.0,
        _ => false,
    }
}

// Whether reversing leaves a loop as it is.
fn is_own_reverse(uses: &[LoopUse]) -> bool
    ensures { IsTrue result ↔ (reversed_uses uses.now ≡ uses.now) }
{
    'uses: for i in 0..uses.len() {
        let turned = use_before(uses, true, i);
        let own = use_before(uses, false, i);
        if !same_use(turned, own) {
            return false;
        }
    }
    true
}

fn uses_fit(
    solid: &Solid,
    geometry: &Geometry,
    change: &Change,
    old: &[LoopUse],
    reversed: bool,
    now: &[UseNow],
) -> bool
    ensures { IsTrue result ↔ Matched (UseFits solid.now geometry.now change.now)
        (uses_before old.now reversed) now.now }
{
    if old.len() != now.len() {
        return false;
    }
    'uses: for i in 0..now.len() {
        let before = use_before(old, reversed, i);
        let after = item_at(now, i);
        if !use_fits(solid, geometry, change, before, *after) {
            return false;
        }
    }
    true
}

fn loop_fits(solid: &Solid, geometry: &Geometry, change: &Change, old: &Loop, now: &LoopNow) -> bool
    ensures { IsTrue result ↔ LoopFits solid.now geometry.now change.now old.now now.now }
{
    let uses = old.uses.as_slice();
    if now.reversed && is_own_reverse(uses) {
        return false;
    }
    let after = now.uses.as_slice();
    uses_fit(solid, geometry, change, uses, now.reversed, after)
}

fn loops_fit(
    solid: &Solid,
    geometry: &Geometry,
    change: &Change,
    old: &[Loop],
    now: &[LoopNow],
) -> bool
    ensures { IsTrue result ↔ Matched (LoopFits solid.now geometry.now change.now)
        old.now now.now }
{
    if old.len() != now.len() {
        return false;
    }
    'loops: for i in 0..now.len() {
        let before = item_at(old, i);
        let after = item_at(now, i);
        if !loop_fits(solid, geometry, change, before, after) {
            return false;
        }
    }
    true
}

fn face_fits(solid: &Solid, geometry: &Geometry, change: &Change, old: &FaceUse, now: &Fate) -> bool
    ensures { IsTrue result ↔ FaceFits solid.now geometry.now change.now old.now now.now }
{
    match now {
        Fate::Removed => true,
        Fate::Kept(now) => {
            let loops = old.loops.as_slice();
            loops_fit(solid, geometry, change, loops, now.loops.as_slice())
        }
    }
}

/// Whether what becomes of each face of a list fits.
pub fn faces_fit(
    solid: &Solid,
    geometry: &Geometry,
    change: &Change,
    old: &[FaceUse],
    now: &[Fate],
) -> bool
    ensures { IsTrue result ↔ Matched (FaceFits solid.now geometry.now change.now)
        old.now now.now }
{
    if old.len() != now.len() {
        return false;
    }
    'faces: for i in 0..now.len() {
        let before = item_at(old, i);
        let after = item_at(now, i);
        if !face_fits(solid, geometry, change, before, after) {
            return false;
        }
    }
    true
}
