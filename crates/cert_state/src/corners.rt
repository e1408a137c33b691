//! Whether a corner or a point line fits.

ghost use Rattle.std.specs.Prelude.{◌≡◌, ℕ, ◌<◌, List, IfSome, MatchOption, Some, length, map};
ghost use Rattle.solid_data.specs.declared.solid.LoopAt.{LoopAt as LoopPlace};
ghost use Rattle.edge_uses.specs.declared.row.Row.{Row as AnyRow};
ghost use Rattle.cert_lines.specs.Line.{corner, point};
ghost use Rattle.cert_text.specs.Text.{AreNumbers};
ghost use Rattle.cert_state.specs.Progress.{Progress, vertex_of, FitsPoint};
ghost use Rattle.cert_state.specs.CheckState.{HoldsMates, InFileOrder, corner_size, is_alone};
ghost use Rattle.cert_state.specs.Ring.{FitsCornerLine, BeginsWithNumbers, BeginsWithCorner};

use crate::fitting::{is_above, named_row};
use crate::points::point_place;
use crate::ring::ring_len;
use cert_text::next_number;
use edge_uses::{Rows, point_at};
use solid_data::VertexId;

/// The vertex of a corner line that fits after one at the last vertex, where these are the mates, and what follows its
/// numbers, with which the text begins.
pub(crate) fn read_corner<'t>(
    rows: &Rows,
    sizes: &[u32],
    mates: &[u32],
    last: Option<u32>,
    text: &'t [u8],
) -> Option<(VertexId, &'t [u8])>
    requires { sizes.now ≡ map (λ (r : AnyRow). corner_size rows.now r.from.0) rows.now.rows }
    ensures numbers { IfSome result (λ p. BeginsWithCorner text.now p.1.now) }
    ensures fits { (at : Progress) (rs rest : List ℕ) → HoldsMates mates.now at.mates → at.last_vertex ≡ last → BeginsWithNumbers text.now rs rest →
        MatchOption result (¬ FitsCornerLine rows.now at rs)
        (λ p. FitsCornerLine rows.now at rs × (vertex_of rows.now (corner rs) ≡ Some p.0.0) × (p.1.now ≡ rest)) }
{
    let Some((first, others)) = next_number(text) else {
        return None;
    };
    let Some(row) = named_row(rows, first) else {
        return None;
    };
    if !is_above(last, row.from.0) {
        return None;
    }
    let Some((len, rest)) = ring_len(rows, mates, first, others) else {
        return None;
    };
    if sizes[first as usize - 1] as usize == len {
        Some((row.from, rest))
    } else {
        None
    }
}

/// The vertex of a corner line that fits after one at the last vertex, where these are the mates.
pub fn fitting_corner(
    rows: &Rows,
    sizes: &[u32],
    mates: &[u32],
    last: Option<u32>,
    numbers: &[u8],
) -> Option<VertexId>
    requires { sizes.now ≡ map (λ (r : AnyRow). corner_size rows.now r.from.0) rows.now.rows }
    ensures { (at : Progress) (rs : List ℕ) → HoldsMates mates.now at.mates → at.last_vertex ≡ last → AreNumbers numbers.now rs →
        MatchOption result (¬ FitsCornerLine rows.now at rs) (λ v. FitsCornerLine rows.now at rs × (vertex_of rows.now (corner rs) ≡ Some v.0)) }
{
    let Some((vertex, rest)) = read_corner(rows, sizes, mates, last, numbers) else {
        return None;
    };
    if rest.is_empty() { Some(vertex) } else { None }
}

/// The vertex of a point line that fits after one at the last vertex.
pub fn fitting_point(
    rows: &Rows,
    alone: &[bool],
    last: Option<u32>,
    face: u32,
    place: u32,
) -> Option<VertexId>
    requires alone { alone.now ≡ map (λ (p : LoopPlace
        × ℕ). is_alone rows.now p.1) rows.now.points }
    requires order { InFileOrder rows.now.points }
    ensures { (at : Progress) → at.last_vertex ≡ last →
        MatchOption result (¬ FitsPoint rows.now at face place) (λ v. FitsPoint rows.now at face place × (vertex_of rows.now (point face place) ≡ Some v.0)) }
{
    let Some(i) = point_place(rows, face, place) else {
        return None;
    };
    let vertex = point_at(rows, i).1;
    if !alone[i] {
        return None;
    }
    if is_above(last, vertex.0) {
        Some(vertex)
    } else {
        None
    }
}
