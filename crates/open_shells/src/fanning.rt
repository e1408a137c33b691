//! What lies round each vertex of an open shell.

ghost use Rattle.std.specs.Prelude.{◌≡◌, ◌↔◌, ℕ, ◌<◌, ◌++◌, ◌∷◌, [], IsTrue, All, Some, None, length, slice_get, IfOk, IfErr, MatchOption};
ghost use Rattle.std.specs.List.{AllByRecursion, AllZip};
ghost use Rattle.solid_data.specs.Ranges.{IsWithin};
ghost use Rattle.edge_uses.specs.RowRelations.{point_count};
ghost use Rattle.edge_uses.specs.ShellRows.{ShellRows};
ghost use Rattle.open_certificate.specs.Sound.{IsFan, IsFanned};
ghost use Rattle.open_shells.specs.Mating.{AreOnce};
ghost use Rattle.shell_tables.specs.Starting.{AreStarts, ArePoints, AreStartCells, ArePointCells};
ghost use Rattle.open_shells.specs.FanParts.{LiesAt, IsFanFault, IsHeadOf, AreHeadCells};

use crate::heads::heads_of;
use crate::mated::Mated;
use edge_uses::vertex_at;
use iges_base::NoMemory;
use open_certificate::{OpenCorner, OpenCorners};
use shell_tables::{Points, Starts, all_points, all_starts, points_at, starts_at};
use solid_data::{Cells, RowId, RowList, VertexId};
use std::alloc::Global;

/// Why vertices have no fans.
#[derive(Clone, Copy)]
pub(crate) enum FanFault {
    /// The least vertex that has neither one fan of rows and no loop without an edge, nor no row and exactly one loop
    /// without an edge.
    NotFanned(VertexId),
    /// Memory ran out.
    NoMemory,
}

impl From<NoMemory> for FanFault {
    ghost use Rattle.std.specs.Prelude.{◌≡◌};
    ghost use Rattle.open_shells.specs.declared.fanning.FanFault.TheVariants.{NoMemory as OutOfMemory};

    ghost from_gives = { λ _ e. e ≡ OutOfMemory };

    fn from(_: NoMemory) -> FanFault {
        FanFault::NoMemory
    }
}

// Whether a walk of turns has come back to its first row, after a step at least.
fn is_back(i: u32, at: u32, first: u32) -> bool
    ensures { IsTrue result ↔ (0 < i) × (at ≡ first) }
{
    i > 0 && at == first
}

/// The row from which a walk begins: where the path begins, if it does, or the least.
fn first_row(starts: Starts, head: Option<u32>) -> u32
    ensures none { head ≡ None → result ≡ starts.first }
    ensures some { (h : ℕ) → head ≡ Some h → result ≡ h }
{
    match head {
        Some(row) => row,
        None => starts.first,
    }
}

/// The rows that start at a vertex, from the first on by turns, where that is a cycle or a path of all of them.
fn walk(
    alloc: Global,
    mated: &Mated<'_>,
    vertex: u32,
    starts: Starts,
    head: Option<u32>,
) -> Result<Option<OpenCorner>, NoMemory>
    requires whole { AreOnce mated.now }
    requires starts { AreStarts mated.now vertex starts }
    requires some { 0 < starts.count }
    requires head { IsHeadOf mated.now vertex head }
    requires no_point { point_count mated.now vertex ≡ 0 }
    ensures { IfOk result (λ o. MatchOption o (¬ IsFan mated.now vertex)
        (λ corner. LiesAt mated.now vertex corner × IsFan mated.now vertex)) }
{
    let first = first_row(starts, head);
    let mut rows = RowList::new(alloc);
    let mut at = first;
    'walk: for i in 0..starts.count {
        if is_back(i, at, first) {
            return Ok(None);
        }
        rows.push(RowId(at))?;
        match mated.turn(at) {
            Some(next) => at = next,
            None => {
                if i + 1 == starts.count {
                    return Ok(Some(OpenCorner::Path(rows)));
                }
                return Ok(None);
            }
        }
    }
    if at != first {
        return Ok(None);
    }
    Ok(Some(OpenCorner::Cycle(rows)))
}

/// What lies at a vertex, where it has a fan or is one loop without an edge.
fn corner_at(
    alloc: Global,
    mated: &Mated<'_>,
    vertex: u32,
    starts: Starts,
    points: Points,
    head: Option<u32>,
) -> Result<Option<OpenCorner>, NoMemory>
    requires whole { AreOnce mated.now }
    requires starts { AreStarts mated.now vertex starts }
    requires points { ArePoints mated.now vertex points }
    requires head { IsHeadOf mated.now vertex head }
    ensures { IfOk result (λ o. MatchOption o (¬ IsFanned mated.now vertex)
        (λ corner. LiesAt mated.now vertex corner × IsFanned mated.now vertex)) }
{
    if starts.count == 0 {
        if points.count != 1 {
            return Ok(None);
        }
        return Ok(Some(OpenCorner::Point(points.last)));
    }
    if points.count != 0 {
        return Ok(None);
    }
    match walk(alloc, mated, vertex, starts, head)? {
        None => Ok(None),
        Some(corner) => Ok(Some(corner)),
    }
}

fn push_corner(corners: &mut OpenCorners, corner: OpenCorner) -> Result<(), NoMemory>
    ensures { IfOk result (λ _. corners.new ≡ corners.old ++ corner ∷ []) }
{
    corners.push(corner)
}

fn head_at(heads: &Cells<'_, Option<u32>>, vertex: u32) -> Option<u32>
    requires { IsWithin heads.now.span vertex }
    ensures { (d : ShellRows) → AreHeadCells d heads.now → IsHeadOf d vertex result }
{
    heads.at(vertex)
}

// What lies at each vertex that occurs in the shell; it errs at the first vertex that isn't fanned.
fn corners_of(
    alloc: Global,
    mated: &Mated<'_>,
    starts: &Cells<'_, Starts>,
    points: &Cells<'_, Points>,
    heads: &Cells<'_, Option<u32>>,
) -> Result<OpenCorners, FanFault>
    requires whole { AreOnce mated.now }
    requires starts { AreStartCells mated.now starts.now }
    requires points { ArePointCells mated.now points.now }
    requires heads { AreHeadCells mated.now heads.now }
    ensures corners { IfOk result (AllZip (LiesAt mated.now) mated.now.vertices) }
    ensures fanned { IfOk result (λ _. AllByRecursion (IsFanned mated.now) mated.now.vertices) }
    ensures fault { IfErr result (IsFanFault mated.now) }
{
    let rows = mated.rows();
    let mut corners = OpenCorners::new(alloc);
    'vertices: for i in 0..rows.vertex_count() {
        let vertex = vertex_at(rows, i);
        let corner = corner_at(
            alloc,
            mated,
            vertex.0,
            starts_at(starts, vertex.0),
            points_at(points, vertex.0),
            head_at(heads, vertex.0),
        )?;
        let Some(corner) = corner else {
            return Err(FanFault::NotFanned(vertex));
        };
        push_corner(&mut corners, corner)?;
    }
    Ok(corners)
}

/// For each vertex of a shell, by rising number, the cycle or the path of the rows that start there, or its one loop without
/// an edge.
pub(crate) fn fans(alloc: Global, mated: &Mated<'_>) -> Result<OpenCorners, FanFault>
    ensures corners { IfOk result (AllZip (LiesAt mated.now) mated.now.vertices) }
    ensures fanned { IfOk result (λ _. AllByRecursion (IsFanned mated.now) mated.now.vertices) }
    ensures fault { IfErr result (IsFanFault mated.now) }
{
    let rows = mated.rows();
    let starts = all_starts(alloc, rows)?;
    let points = all_points(alloc, rows)?;
    let heads = heads_of(alloc, mated)?;
    corners_of(alloc, mated, &starts, &points, &heads)
}
