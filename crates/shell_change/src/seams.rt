//! Seams: pairs of old edges that are sewn together, and how they are equal.

ghost use Rattle.std.specs.Prelude.{◌≡◌, ◌↔◌, IsTrue, Some};
ghost use Rattle.shell_change.specs.Seams.{same_ends as has_same_ends, opposite_ends as has_opposite_ends, both_lines as are_lines, same_line as is_same_line, is_sure as is_sure_pair, how_equal as equal_as, how_known as known_as, seam_equal as seam_equal_as, SeamFits};

use crate::change::{Seam, Told};
use crate::geometry::{CurveKnown, Geometry};
use crate::tracks::{Track, curve_of, track_of};
use solid_data::Solid;

fn same_ends(a: Track, b: Track) -> bool
    ensures { result ≡ has_same_ends a b }
{
    a.from == b.from && a.to == b.to
}

fn opposite_ends(a: Track, b: Track) -> bool
    ensures { result ≡ has_opposite_ends a b }
{
    a.from == b.to && a.to == b.from
}

fn both_lines(m: Option<u32>, n: Option<u32>) -> bool
    ensures { result ≡ are_lines m n }
{
    m.is_some() && n.is_some()
}

fn same_line(m: Option<u32>, n: Option<u32>) -> bool
    ensures { result ≡ is_same_line m n }
{
    match (m, n) {
        (Some(m), Some(n)) => m == n,
        _ => false,
    }
}

fn is_sure(a: Track, b: Track, p: CurveKnown, q: CurveKnown) -> bool
    ensures { result ≡ is_sure_pair a b p q }
{
    (a.from != a.to && both_lines(p.line, q.line)) || (same_ends(a, b) && p.record == q.record)
}

fn how_equal(a: Track, b: Track, p: CurveKnown, q: CurveKnown) -> Option<Told>
    ensures { result ≡ equal_as a b p q }
{
    if same_ends(a, b) || opposite_ends(a, b) {
        return if is_sure(a, b, p, q) {
            Some(Told::Sure)
        } else {
            Some(Told::Places)
        };
    }
    if p.record == q.record || same_line(p.line, q.line) {
        return Some(Told::Curve);
    }
    None
}

fn how_known(
    a: Option<Track>,
    b: Option<Track>,
    p: Option<CurveKnown>,
    q: Option<CurveKnown>,
) -> Option<Told>
    ensures { result ≡ known_as a b p q }
{
    how_equal(a?, b?, p?, q?)
}

/// How the edges of a seam are equal.
fn seam_equal(solid: &Solid, geometry: &Geometry, seam: Seam) -> Option<Told>
    ensures { result ≡ seam_equal_as solid.now geometry.now seam }
{
    how_known(
        track_of(solid, geometry, seam.left),
        track_of(solid, geometry, seam.taken),
        curve_of(geometry, seam.left),
        curve_of(geometry, seam.taken),
    )
}

/// Whether a seam is of two edges, and told as they are equal.
pub fn seam_fits(solid: &Solid, geometry: &Geometry, seam: Seam) -> bool
    ensures { IsTrue result ↔ SeamFits solid.now geometry.now seam }
{
    seam.left.0 != seam.taken.0 && seam_equal(solid, geometry, seam) == Some(seam.told)
}
