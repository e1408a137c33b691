//! What lies round each vertex of a shell.

ghost use Rattle.std.specs.Prelude.{◌≡◌, IfOk, IfErr, ◌++◌, ◌∷◌, []};
ghost use Rattle.std.specs.List.{AllByRecursion};
ghost use Rattle.edge_uses.specs.Around.{IsLinked};
ghost use Rattle.edge_uses.specs.Mates.{ArePaired};
ghost use Rattle.vertex_link.specs.Corners.{AreLinks};
ghost use Rattle.vertex_link.specs.Faults.{IsLinkFault};
ghost use Rattle.shell_tables.specs.Starting.{AreStartCells, ArePointCells};

use crate::corners::Links;
use crate::fault::LinkFault;
use crate::walking::corner_at;
use edge_uses::{Paired, vertex_at};
use iges_base::NoMemory;
use shell_tables::{Points, Starts, all_points, all_starts, points_at, starts_at};
use solid_data::{Cells, Corner, Corners};
use std::alloc::Global;

fn push_corner(corners: &mut Corners, corner: Corner) -> Result<(), NoMemory>
    ensures { IfOk result (λ _. corners.new ≡ corners.old ++ corner ∷ []) }
{
    corners.push(corner)
}

fn corners_of(
    alloc: Global,
    paired: &Paired<'_>,
    starts: &Cells<'_, Starts>,
    points: &Cells<'_, Points>,
) -> Result<Corners, LinkFault>
    requires whole { ArePaired paired.now }
    requires starts { AreStartCells paired.now starts.now }
    requires points { ArePointCells paired.now points.now }
    ensures links { IfOk result (λ corners. AreLinks paired.now corners) }
    ensures linked { IfOk result (λ _. AllByRecursion (IsLinked paired.now) paired.now.vertices) }
    ensures fault { IfErr result (λ fault. IsLinkFault paired.now fault) }
{
    let rows = paired.rows();
    let mut corners = Corners::with_room(alloc, rows.vertex_slice().len())?;
    'vertices: for i in 0..rows.vertex_count() {
        let vertex = vertex_at(rows, i);
        let corner = corner_at(
            alloc,
            paired,
            vertex.0,
            starts_at(starts, vertex.0),
            points_at(points, vertex.0),
        )?;
        let Some(corner) = corner else {
            return Err(LinkFault::Broken(vertex));
        };
        push_corner(&mut corners, corner)?;
    }
    Ok(corners)
}

/// For each vertex of a shell, by rising number, the cycle of the rows that start there, from the
/// least one on by turns, or its one loop without an edge.
pub fn links(alloc: Global, paired: &Paired<'_>) -> Result<Links, LinkFault>
    ensures links { IfOk result (λ links. AreLinks paired.now links) }
    ensures linked { IfOk result (λ _. AllByRecursion (IsLinked paired.now) paired.now.vertices) }
    ensures fault { IfErr result (λ fault. IsLinkFault paired.now fault) }
{
    let rows = paired.rows();
    let starts = all_starts(alloc, rows)?;
    let points = all_points(alloc, rows)?;
    let corners = corners_of(alloc, paired, &starts, &points)?;
    Ok(Links::of(corners))
}
