//! Whether the numbers of a line fit the rows of an open shell.

ghost use Rattle.std.specs.Prelude.{◌≡◌, ◌↔◌, ℕ, ◌+◌, ◌-◌, ◌<◌, ◌^◌, ◌∷◌, List, IsTrue, MatchOption, Some, length, map};
ghost use Rattle.edge_uses.specs.declared.row.Row.{Row as AnyRow};
ghost use Rattle.cert_text.specs.Text.{AreNumbers};
ghost use Rattle.cert_state.specs.Progress.{TurnsTo};
ghost use Rattle.cert_state.specs.CheckState.{HoldsMates, corner_size};
ghost use Rattle.open_certificate.specs.Line.{lone as lone_line, path as path_line, border as border_line};
ghost use Rattle.open_certificate.specs.Progress.{OpenProgress, edge_in, vertex_in, border_in, GoesOnTo, IsChain, last_of, FitsLone};
ghost use Rattle.open_certificate.specs.CheckState.{IsMarked, HoldsRows, AreCounts};
ghost use Rattle.open_certificate.specs.Walks.{FitsPathLine, FitsBorderLine, IsBorderRing};

use crate::parsed::OpenCounts;
use cert_state::{is_above, named_row, turns_to};
use cert_text::next_number;
use edge_uses::Rows;
use solid_data::{EdgeId, VertexId};

/// Whether these are the counts of the shell.
pub(crate) fn fits_counts(rows: &Rows, words: &OpenCounts) -> bool
    ensures { IsTrue result
        ↔ AreCounts rows.now words.now.rows words.now.edges words.now.corners words.now.faces }
{
    words.rows as usize == rows.len()
        && words.edges as usize == rows.edge_count()
        && words.corners as usize == rows.vertex_count()
        && words.faces as usize == rows.face_count()
}

/// Whether an edge line that lists some rows more may come: the last one lists the last of the shell's rows.
pub(crate) fn lists_all(rows: &Rows, edges_due: u32, listed: u64, more: u64) -> bool
    requires listed { listed < 2 ^ 40 }
    requires more { more < 2 ^ 40 }
    ensures { IsTrue result ↔ (edges_due ≡ 1 → listed + more ≡ length rows.now.rows) }
{
    edges_due != 1 || listed + more == rows.len() as u64
}

/// The edge of a line of the only row of an edge that fits after one of the last edge.
pub(crate) fn fitting_lone(rows: &Rows, last: Option<u32>, row: u32) -> Option<EdgeId>
    ensures { (at : OpenProgress) → at.last_edge ≡ last → MatchOption result (¬ FitsLone rows.now at row)
        (λ e. FitsLone rows.now at row × (edge_in rows.now (lone_line row) ≡ Some e.0)) }
{
    let Some(here) = named_row(rows, row) else {
        return None;
    };
    if is_above(last, here.edge.0) {
        Some(here.edge)
    } else {
        None
    }
}

/// Whether a row, from 1, is marked.
pub(crate) fn is_marked(marks: &[bool], row: u32) -> bool
    ensures { IsTrue result ↔ IsMarked marks.now row }
{
    if row == 0 {
        return false;
    }
    match marks.get(row as usize - 1) {
        Some(marked) => *marked,
        None => false,
    }
}

/// How many rows turn one to the next from a first one on, and the last of them. The others are numbers of a text, each
/// after a space.
fn path_end(rows: &Rows, mates: &[u32], first: u32, others: &[u8]) -> Option<(u32, usize)>
    ensures { (pairs : List (ℕ × ℕ)) (rs : List ℕ) → HoldsMates mates.now pairs → AreNumbers others.now rs →
        MatchOption result (¬ IsChain (TurnsTo rows.now pairs) first rs)
        (λ p. IsChain (TurnsTo rows.now pairs) first rs × (p.0 ≡ last_of first rs) × (p.1 ≡ length (first ∷ rs))) }
{
    let mut last = first;
    let mut rest = others;
    let mut count = 1;
    'turns: while let Some((next, after)) = next_number(rest) {
        if !turns_to(rows, mates, last, next) {
            return None;
        }
        last = next;
        rest = after;
        count += 1;
    }
    Some((last, count))
}

/// The vertex of a path line that fits after one at the last vertex, where these are the mates and the rows that are the
/// only ones of their edges.
pub(crate) fn fitting_path(
    rows: &Rows,
    sizes: &[u32],
    mates: &[u32],
    lone: &[bool],
    last: Option<u32>,
    numbers: &[u8],
) -> Option<VertexId>
    requires { sizes.now ≡ map (λ (r : AnyRow). corner_size rows.now r.from.0) rows.now.rows }
    ensures { (at : OpenProgress) (rs : List ℕ) → HoldsMates mates.now at.mates → HoldsRows lone.now at.lone → at.last_vertex ≡ last → AreNumbers numbers.now rs →
        MatchOption result (¬ FitsPathLine rows.now at rs) (λ v. FitsPathLine rows.now at rs × (vertex_in rows.now (path_line rs) ≡ Some v.0)) }
{
    let Some((first, others)) = next_number(numbers) else {
        return None;
    };
    let Some(row) = named_row(rows, first) else {
        return None;
    };
    if !is_above(last, row.from.0) {
        return None;
    }
    let Some((end, len)) = path_end(rows, mates, first, others) else {
        return None;
    };
    if !is_marked(lone, end) {
        return None;
    }
    if sizes[first as usize - 1] as usize == len {
        Some(row.from)
    } else {
        None
    }
}

/// Whether a row starts where another ends, both from 1.
fn goes_on_to(rows: &Rows, row: u32, next: u32) -> bool
    ensures { IsTrue result ↔ GoesOnTo rows.now row next }
{
    let Some(here) = named_row(rows, row) else {
        return false;
    };
    match named_row(rows, next) {
        Some(there) => here.to == there.from,
        None => false,
    }
}

/// Whether a row may follow the last one of a border line.
fn borders_on(rows: &Rows, lone: &[bool], first: u32, last: u32, next: u32) -> bool
    ensures { IsTrue result ↔ (first < next) × IsMarked lone.now next
        × GoesOnTo rows.now last next }
{
    first < next && is_marked(lone, next) && goes_on_to(rows, last, next)
}

/// How many of the rows that are the only ones of their edges go on to one another from a first one on, back to it, which
/// is the least. The others are numbers of a text, each after a space.
fn border_len(rows: &Rows, lone: &[bool], first: u32, others: &[u8]) -> Option<usize>
    ensures { (rows_alone : List ℕ) (rs : List ℕ) → HoldsRows lone.now rows_alone → AreNumbers others.now rs →
        MatchOption result (¬ IsBorderRing rows.now rows_alone first first rs) (λ n. IsBorderRing rows.now rows_alone first first rs × (n ≡ length (first ∷ rs))) }
{
    if !is_marked(lone, first) {
        return None;
    }
    let mut last = first;
    let mut rest = others;
    let mut count = 1;
    'rows: while let Some((next, after)) = next_number(rest) {
        if !borders_on(rows, lone, first, last, next) {
            return None;
        }
        last = next;
        rest = after;
        count += 1;
    }
    if goes_on_to(rows, last, first) {
        Some(count)
    } else {
        None
    }
}

/// The first row of a border line that fits after one with the last first row, and how many rows it lists.
pub(crate) fn fitting_border(
    rows: &Rows,
    lone: &[bool],
    last: Option<u32>,
    numbers: &[u8],
) -> Option<(u32, usize)>
    ensures { (at : OpenProgress) (rs : List ℕ) → HoldsRows lone.now at.lone → at.last_border ≡ last → AreNumbers numbers.now rs →
        MatchOption result (¬ FitsBorderLine rows.now at rs) (λ p. FitsBorderLine rows.now at rs × (border_in (border_line rs) ≡ Some p.0) × (length rs ≡ p.1)) }
{
    let Some((first, others)) = next_number(numbers) else {
        return None;
    };
    if !is_above(last, first) {
        return None;
    }
    match border_len(rows, lone, first, others) {
        Some(len) => Some((first, len)),
        None => None,
    }
}
