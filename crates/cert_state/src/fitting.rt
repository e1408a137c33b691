//! Whether the numbers of a line fit the rows of a shell.

ghost use Rattle.std.specs.Prelude.{◌≡◌, ◌↔◌, ℕ, ◌+◌, ◌-◌, ◌<◌, ◌≤◌, List, IsTrue, IfSome, MatchOption, Some, true, length, slice_get};
ghost use Rattle.cert_lines.specs.Line.{edge, reach};
ghost use Rattle.cert_state.specs.Progress.{Progress, row_named, edge_of, face_of, IsAbove, TurnsTo, FitsEdge, FitsReach};
ghost use Rattle.cert_state.specs.CheckState.{mate_in, HoldsMates, HoldsFaces, AreCounts, IsTally};

use cert_lines::{ShellCounts, TallyCounts, from_one};
use edge_uses::{Row, Rows};
use solid_data::{EdgeId, FaceAt, RowId};

/// The row that a line names, from 1.
pub fn named_row(rows: &Rows, number: u32) -> Option<Row>
    ensures { result ≡ row_named rows.now number }
{
    if number == 0 {
        return None;
    }
    rows.row(RowId(number - 1))
}

/// Whether a number is above the last one, where there is one.
pub fn is_above(last: Option<u32>, number: u32) -> bool
    ensures { IsTrue result ↔ IsAbove last number }
{
    match last {
        Some(before) => before < number,
        None => true,
    }
}

/// The edge of an edge line that fits after one of the last edge.
pub fn fitting_edge(rows: &Rows, last: Option<u32>, along: u32, against: u32) -> Option<EdgeId>
    ensures { (at : Progress) → at.last_edge ≡ last → MatchOption result (¬ FitsEdge rows.now at along against)
        (λ e. FitsEdge rows.now at along against × (edge_of rows.now (edge along against) ≡ Some e.0)) }
{
    let Some(first) = named_row(rows, along) else {
        return None;
    };
    let Some(second) = named_row(rows, against) else {
        return None;
    };
    if first.edge != second.edge || !first.along || second.along {
        return None;
    }
    if is_above(last, first.edge.0) {
        Some(first.edge)
    } else {
        None
    }
}

/// Whether these are the counts of a shell.
pub(crate) fn fits_counts(rows: &Rows, counts: &ShellCounts) -> bool
    ensures { IsTrue result ↔ AreCounts rows.now counts.now }
{
    counts.rows as usize == rows.len()
        && counts.edges as usize == rows.edge_count()
        && counts.corners as usize == rows.vertex_count()
        && counts.faces as usize == rows.face_count()
        && 2 * u64::from(counts.edges) == u64::from(counts.rows)
}

/// Whether these are the counts of a shell with so many loops.
pub(crate) fn fits_tally(rows: &Rows, loops: u64, counts: &TallyCounts) -> bool
    ensures { IsTrue result ↔ IsTally rows.now loops counts.now }
{
    counts.vertices as usize == rows.vertex_count()
        && counts.edges as usize == rows.edge_count()
        && counts.faces as usize == rows.face_count()
        && u64::from(counts.loops) == loops
}

/// The mate of a row, both from 1.
fn mate_of(mates: &[u32], row: u32) -> Option<u32>
    ensures { result ≡ mate_in mates.now row }
{
    if row == 0 {
        return None;
    }
    match mates.get(row as usize - 1) {
        Some(mate) if *mate != 0 => Some(*mate),
        _ => None,
    }
}

// False for a face past the last one too.
fn is_reached(reached: &[bool], face: u32) -> bool
    ensures { IsTrue result ↔ (slice_get reached.now face ≡ Some true) }
{
    match reached.get(face as usize) {
        Some(known) => *known,
        None => false,
    }
}

/// The face of a reach line that fits where these are the mates and the faces reached.
pub fn fitting_face(rows: &Rows, mates: &[u32], reached: &[bool], row: u32) -> Option<FaceAt>
    ensures fits { (at : Progress) → HoldsMates mates.now at.mates → HoldsFaces reached.now at.reached → MatchOption result (¬ FitsReach rows.now at row)
        (λ f. FitsReach rows.now at row × (face_of rows.now (reach row) ≡ Some f.0)) }
    ensures known { IfSome result (λ f. f.0 < rows.now.face_count) }
{
    let _count = rows.len();
    let Some(mate) = mate_of(mates, row) else {
        return None;
    };
    let Some(here) = named_row(rows, row) else {
        return None;
    };
    let Some(there) = named_row(rows, mate) else {
        return None;
    };
    if is_reached(reached, here.at.face.0) {
        return None;
    }
    if is_reached(reached, there.at.face.0) {
        Some(here.at.face)
    } else {
        None
    }
}

/// The row that follows the mate of a row, all from 1.
pub fn turn_of(rows: &Rows, mates: &[u32], row: u32) -> Option<u64>
    ensures { (pairs : List (ℕ × ℕ)) → HoldsMates mates.now pairs → (s : ℕ) → (result ≡ Some s)
        ↔ TurnsTo rows.now pairs row s }
{
    let Some(mate) = mate_of(mates, row) else {
        return None;
    };
    match rows.follows(RowId(mate - 1)) {
        Some(next) => Some(from_one(next.0)),
        None => None,
    }
}
