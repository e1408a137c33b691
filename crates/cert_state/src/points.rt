//! The loops without an edge of a shell, by face and place.

ghost use Rattle.std.specs.Prelude.{◌≡◌, ◌↔◌, ℕ, ◌+◌, ◌<◌, ◌≤◌, IsTrue, MatchOption, None, Some, length, slice_get};
ghost use Rattle.cert_state.specs.Progress.{point_named};
ghost use Rattle.cert_state.specs.CheckState.{InFileOrder};
ghost use Rattle.cert_state.specs.Places.{IsNamed, IsBefore, IsNamedAt};

use cert_lines::from_one;
use edge_uses::{Rows, point_at};
use solid_data::LoopAt;

/// Whether a loop is the one that a line names, by face and place from 1.
fn is_named(at: LoopAt, face: u32, place: u32) -> bool
    ensures { IsTrue result ↔ IsNamed at face place }
{
    from_one(at.face.0) == u64::from(face) && from_one(at.place) == u64::from(place)
}

/// Whether a loop comes before the one that a line names.
fn is_before(at: LoopAt, face: u32, place: u32) -> bool
    ensures { IsTrue result ↔ IsBefore at face place }
{
    let here = from_one(at.face.0);
    let there = u64::from(face);
    here < there || here == there && from_one(at.place) < u64::from(place)
}

/// Which of the loops without an edge a line names, by face and place from 1; they are in file order.
pub(crate) fn point_place(rows: &Rows, face: u32, place: u32) -> Option<usize>
    requires { InFileOrder rows.now.points }
    ensures { MatchOption result (point_named rows.now face place ≡ None)
        (λ i. IsNamedAt rows.now face place i) }
{
    let mut low = 0;
    let mut high = rows.isolated_count();
    'halves: while low < high {
        let middle = low + (high - low) / 2;
        let at = point_at(rows, middle).0;
        if is_named(at, face, place) {
            return Some(middle);
        }
        if is_before(at, face, place) {
            low = middle + 1;
        } else {
            high = middle;
        }
    }
    None
}
