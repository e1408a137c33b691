//! What a use of a loop may be after the change, and what a new edge may be.

ghost use Rattle.std.specs.Prelude.{◌≡◌, ◌↔◌, IsTrue, option_copied};
ghost use Rattle.shell_change.specs.UseFits.{leads as leads_to, end_goes as goes, sews as sews_to, curve_goes as curve_is_had, equal_records as have_equal_records, same_curve as has_same_curve, at_one_place as is_at_one_place, flag_goes as flag_is_had, EdgeUseFits, EdgeKnownFits, end_known as known_goes, UseFits, NewEdgeFits};

use crate::change::{Change, EdgeNow, Move, NewEdge, Seam, UseNow};
use crate::geometry::{CurveKnown, Geometry};
use crate::tracks::{Track, curve_of, edge_track, known_end, old_place, place, run, track_of};
use solid_data::{EdgeId, LoopUse, Solid, same_flags};

fn leads(item: Option<&Move>, p: u32, q: u32) -> bool
    ensures { result ≡ leads_to (option_copied item.entry) p q }
{
    match item {
        None => false,
        Some(item) => item.from == p && item.to == q,
    }
}

fn end_goes(change: &Change, by: Option<u32>, p: u32, q: u32) -> bool
    ensures { result ≡ goes change.now by p q }
{
    match by {
        None => p == q,
        Some(i) => leads(change.moves.get(i as usize), p, q),
    }
}

fn sews(seam: Option<&Seam>, e: EdgeId, f: EdgeId) -> bool
    ensures { result ≡ sews_to (option_copied seam.entry) e.0 f.0 }
{
    match seam {
        None => false,
        Some(seam) => seam.left.0 == e.0 && seam.taken.0 == f.0,
    }
}

fn curve_goes(change: &Change, seam: Option<u32>, e: EdgeId, f: EdgeId) -> bool
    ensures { result ≡ curve_is_had change.now seam e.0 f.0 }
{
    match seam {
        None => e.0 == f.0,
        Some(i) => sews(change.seams.get(i as usize), e, f),
    }
}

fn equal_records(p: Option<CurveKnown>, q: Option<CurveKnown>) -> bool
    ensures { result ≡ have_equal_records p q }
{
    match (p, q) {
        (Some(p), Some(q)) => p.record == q.record,
        _ => false,
    }
}

fn same_curve(geometry: &Geometry, e: EdgeId, f: EdgeId) -> bool
    ensures { result ≡ has_same_curve geometry.now e.0 f.0 }
{
    e.0 == f.0 || equal_records(curve_of(geometry, e), curve_of(geometry, f))
}

fn at_one_place(track: Track) -> bool
    ensures { result ≡ is_at_one_place track }
{
    track.from == track.to
}

fn flag_goes(same_curve: bool, stays: bool, turned: bool) -> bool
    ensures { result ≡ flag_is_had same_curve stays turned }
{
    if same_curve {
        stays && !turned
    } else {
        same_flags(stays, !turned)
    }
}

fn edge_use_fits(
    geometry: &Geometry,
    change: &Change,
    a: Track,
    b: Track,
    along: bool,
    item: EdgeNow,
) -> bool
    ensures { IsTrue result ↔ EdgeUseFits geometry.now change.now a b along item }
{
    let ran = run(a, !item.turned);
    let flag_tells = at_one_place(a) || at_one_place(b);
    let equal = same_curve(geometry, a.curve, b.curve);
    curve_goes(change, item.seam, a.curve, b.curve)
        && end_goes(change, item.start_by, ran.from, b.from)
        && end_goes(change, item.end_by, ran.to, b.to)
        && (!flag_tells || flag_goes(equal, same_flags(along, item.along), item.turned))
}

fn edge_known_fits(
    geometry: &Geometry,
    change: &Change,
    before: Option<Track>,
    now: Option<Track>,
    along: bool,
    item: EdgeNow,
) -> bool
    ensures { IsTrue result ↔ EdgeKnownFits geometry.now change.now before now along item }
{
    match (before, now) {
        (Some(before), Some(now)) => {
            let (a, b) = (run(before, along), run(now, item.along));
            edge_use_fits(geometry, change, a, b, along, item)
        }
        _ => false,
    }
}

fn end_known(change: &Change, by: Option<u32>, p: Option<u32>, q: Option<u32>) -> bool
    ensures { result ≡ known_goes change.now by p q }
{
    match (p, q) {
        (Some(p), Some(q)) => end_goes(change, by, p, q),
        _ => false,
    }
}

/// Whether a use may be this after the change.
pub fn use_fits(
    solid: &Solid,
    geometry: &Geometry,
    change: &Change,
    before: LoopUse,
    now: UseNow,
) -> bool
    ensures { IsTrue result ↔ UseFits solid.now geometry.now change.now before now }
{
    match (before, now) {
        (LoopUse::EdgeUse { edge, along }, UseNow::OnEdge(item)) => {
            let old = track_of(solid, geometry, edge);
            let new = edge_track(solid, geometry, change, item.edge);
            edge_known_fits(geometry, change, old, new, along, item)
        }
        (LoopUse::VertexUse { vertex }, UseNow::AtVertex { vertex: now, by }) => {
            let new = place(geometry, change, now);
            end_known(change, by, old_place(geometry, vertex), new)
        }
        _ => false,
    }
}

/// Whether a new edge lies where the old edge does that it is like, but for ends that have moved.
pub fn new_edge_fits(solid: &Solid, geometry: &Geometry, change: &Change, item: NewEdge) -> bool
    ensures { IsTrue result ↔ NewEdgeFits solid.now geometry.now change.now item }
{
    let old = track_of(solid, geometry, item.like);
    let from = place(geometry, change, item.from);
    let to = place(geometry, change, item.to);
    end_known(change, item.from_by, known_end(old, false), from)
        && end_known(change, item.to_by, known_end(old, true), to)
}
