//! The mates of the rows of an open shell.

ghost use Rattle.std.specs.Prelude.{◌≡◌, ◌↔◌, ◌<◌, ◌∷◌, ◌++◌, [], IsTrue, ℕ, Some, length, slice_get, IfOk, MatchOption};
ghost use Rattle.std.specs.List.{AllByRecursion, AllZip};
ghost use Rattle.solid_data.specs.Obligations.{FirstNot};
ghost use Rattle.solid_data.specs.Ranges.{IsWithin};
ghost use Rattle.edge_uses.specs.declared.row.Row.{Row as AnyRow};
ghost use Rattle.edge_uses.specs.ShellRows.{ShellRows, AreRows, EndsMeet};
ghost use Rattle.edge_uses.specs.Tally.{seen_of, IsSeen, IsTally};
ghost use Rattle.open_certificate.specs.Sound.{IsOnce};
ghost use Rattle.open_shells.specs.Mating.{AreRowsOf, IsMateOf, AreOnce, HaveOpenMates};

use edge_uses::{Row, Rows, Seen, Tally, row_at};
use iges_base::NoMemory;
use open_certificate::{OpenEdge, OpenEdges};
use solid_data::{EdgeId, RowId};
use std::alloc::Global;

/// Whether an edge that was seen so has one row, or one along it and one against it.
fn is_once(seen: Seen) -> bool
    ensures { (d : ShellRows) (e : ℕ) → IsSeen d e seen → IsTrue result ↔ IsOnce d e }
{
    if seen.along > 1 {
        return false;
    }
    if seen.against > 1 {
        return false;
    }
    if seen.along + seen.against == 0 {
        return false;
    }
    true
}

/// The i-th edge that occurs in the shell, i from 0, which there must be.
fn edge_at(rows: &Rows, i: usize) -> u32
    requires { i < length rows.now.edges }
    ensures { slice_get rows.now.edges i ≡ Some result }
{
    rows.edge_at(i).unwrap().0
}

/// The least edge that is used neither once nor by mates.
pub(crate) fn first_not_once(rows: &Rows, tally: &Tally<'_>) -> Option<EdgeId>
    requires tally { IsTally rows.now tally.now.span tally.now.seen }
    requires span { AllByRecursion (IsWithin tally.now.span) rows.now.edges }
    ensures { MatchOption result (AllByRecursion (IsOnce rows.now) rows.now.edges)
        (λ e. FirstNot (IsOnce rows.now) rows.now.edges e.0) }
{
    'edges: for i in 0..rows.edge_count() {
        let edge = edge_at(rows, i);
        if !is_once(tally.of(edge)) {
            return Some(EdgeId(edge));
        }
    }
    None
}

/// The rows of an edge that was seen so.
fn rows_of_edge(seen: Seen) -> OpenEdge
    ensures { (d : ShellRows) (e : ℕ) → IsSeen d e seen → IsOnce d e → AreRowsOf d e result }
{
    if seen.along == 0 {
        return OpenEdge::One(RowId(seen.against_row));
    }
    if seen.against == 0 {
        return OpenEdge::One(RowId(seen.along_row));
    }
    OpenEdge::Two(RowId(seen.along_row), RowId(seen.against_row))
}

/// The rows of each edge, by rising edge.
pub(crate) fn open_edges(
    alloc: Global,
    rows: &Rows,
    tally: &Tally<'_>,
) -> Result<OpenEdges, NoMemory>
    requires tally { IsTally rows.now tally.now.span tally.now.seen }
    requires span { AllByRecursion (IsWithin tally.now.span) rows.now.edges }
    requires once { AllByRecursion (IsOnce rows.now) rows.now.edges }
    ensures { IfOk result (AllZip (AreRowsOf rows.now) rows.now.edges) }
{
    let mut edges = OpenEdges::new(alloc);
    'edges: for i in 0..rows.edge_count() {
        edges.push(rows_of_edge(tally.of(edge_at(rows, i))))?;
    }
    Ok(edges)
}

/// The mate of a row whose edge was seen so.
fn mate_in(seen: Seen, row: Row) -> Option<RowId>
    ensures { (d : ShellRows) (r : ℕ) → slice_get d.rows r ≡ Some row → IsSeen d row.edge.0 seen
        → IsOnce d row.edge.0 → IsMateOf d r result }
{
    if row.along {
        if seen.against == 0 {
            None
        } else {
            Some(RowId(seen.against_row))
        }
    } else if seen.along == 0 {
        None
    } else {
        Some(RowId(seen.along_row))
    }
}

fn push_mate(mates: &mut Vec<Option<RowId>>, mate: Option<RowId>) -> Result<(), NoMemory>
    ensures { IfOk result (λ _. mates.new.items ≡ mates.old.items ++ mate ∷ []) }
{
    mates.push(mate)?;
    Ok(())
}

/// The mate of each row.
pub(crate) fn open_mates(
    alloc: Global,
    rows: &Rows,
    tally: &Tally<'_>,
) -> Result<Vec<Option<RowId>>, NoMemory>
    requires tally { IsTally rows.now tally.now.span tally.now.seen }
    requires span { AllByRecursion
        (λ (r : AnyRow). IsWithin tally.now.span r.edge.0) rows.now.rows }
    requires whole { AreOnce rows.now }
    ensures { IfOk result (λ mates. HaveOpenMates rows.now mates.items) }
{
    let mut mates = Vec::new(alloc);
    'rows: for i in 0..rows.len() {
        let row = row_at(rows, i);
        push_mate(&mut mates, mate_in(tally.of(row.edge.0), row))?;
    }
    Ok(mates)
}
