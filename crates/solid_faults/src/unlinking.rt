//! Which vertices of a shell aren't linked.

ghost use Rattle.std.specs.Prelude.{◌≡◌, ◌<◌, ◌-◌, ◌==◌, ◌++◌, Contains, Some, length, slice_get, IfOk, get_or};
ghost use Rattle.solid_data.specs.Ranges.{IsWithin};
ghost use Rattle.solid_faults.specs.FanCells.{counted_more, IsOnVertices};
ghost use Rattle.solid_faults.specs.Fans.{AreFanCounts, ArePointCounts, unlinked_at, unlinked_of};
ghost use Rattle.solid_data.specs.declared.TheConstants.{PART_LIMIT};

use crate::fan::Unlinked;
use edge_uses::{Rows, point_at, row_at, vertex_at};
use iges_base::NoMemory;
use solid_data::{Cells, VertexId};
use std::alloc::Global;

fn least_at(leasts: &[u32], i: usize) -> u32
    requires { i < length leasts.now }
    ensures { slice_get leasts.now i ≡ Some result }
{
    leasts[i]
}

fn is_least(least: u32, i: usize) -> bool
    ensures { result ≡ (least == i) }
{
    least as usize == i
}

fn add_at(counts: &mut Cells<'_, u32>, vertex: u32, wanted: bool)
    requires known { Contains counts.old.numbers vertex }
    requires within { IsWithin counts.old.span vertex }
    requires blank { counts.old.blank ≡ 0 }
    requires few { get_or counts.old.cells (vertex - counts.old.span.least) 0 < PART_LIMIT }
    ensures { counts.new ≡ counted_more counts.old vertex wanted }
{
    if wanted {
        let count = counts.at(vertex);
        counts.set(vertex, count + 1);
    }
}

fn fan_counts<'a>(alloc: Global, rows: &'a Rows, leasts: &[u32]) -> Result<Cells<'a, u32>, NoMemory>
    requires each { length leasts.now ≡ length rows.now.rows }
    ensures cells { IfOk result (IsOnVertices rows.now) }
    ensures counts { IfOk result (λ counts. AreFanCounts rows.now leasts.now
        counts.span.least counts.span.count counts.cells) }
{
    let mut counts = Cells::new(alloc, rows.vertex_slice(), 0)?;
    'rows: for i in 0..rows.len() {
        let row = row_at(rows, i);
        let wanted = is_least(least_at(leasts, i), i);
        add_at(&mut counts, row.from.0, wanted);
    }
    Ok(counts)
}

fn point_counts(alloc: Global, rows: &Rows) -> Result<Cells<'_, u32>, NoMemory>
    ensures cells { IfOk result (IsOnVertices rows.now) }
    ensures counts { IfOk result (λ counts. ArePointCounts rows.now
        counts.span.least counts.span.count counts.cells) }
{
    let mut counts = Cells::new(alloc, rows.vertex_slice(), 0)?;
    'points: for i in 0..rows.isolated_count() {
        let point = point_at(rows, i);
        add_at(&mut counts, point.1.0, true);
    }
    Ok(counts)
}

fn count_at(counts: &Cells<'_, u32>, vertex: VertexId) -> u32
    requires within { IsWithin counts.now.span vertex.0 }
    requires blank { counts.now.blank ≡ 0 }
    ensures { result ≡ get_or counts.now.cells (vertex.0 - counts.now.span.least) 0 }
{
    counts.at(vertex.0)
}

fn push_unlinked(
    out: &mut Vec<Unlinked>,
    vertex: VertexId,
    fans: u32,
    points: u32,
) -> Result<(), NoMemory>
    ensures { IfOk result (λ _. out.new.items ≡ out.old.items ++ unlinked_at vertex.0 fans points) }
{
    let linked = fans == 1 && points == 0 || fans == 0 && points == 1;
    if !linked {
        out.push(Unlinked {
            vertex,
            fans,
            points,
        })?;
    }
    Ok(())
}

fn unlinked_in(
    alloc: Global,
    rows: &Rows,
    fans: &Cells<'_, u32>,
    points: &Cells<'_, u32>,
    leasts: &[u32],
) -> Result<Vec<Unlinked>, NoMemory>
    requires on_fans { IsOnVertices rows.now fans.now }
    requires fans { AreFanCounts rows.now leasts.now
        fans.now.span.least fans.now.span.count fans.now.cells }
    requires on_points { IsOnVertices rows.now points.now }
    requires points { ArePointCounts rows.now
        points.now.span.least points.now.span.count points.now.cells }
    ensures { IfOk result (λ out. out.items ≡ unlinked_of rows.now leasts.now) }
{
    let mut out = Vec::new(alloc);
    'vertices: for i in 0..rows.vertex_count() {
        let vertex = vertex_at(rows, i);
        push_unlinked(
            &mut out,
            vertex,
            count_at(fans, vertex),
            count_at(points, vertex),
        )?;
    }
    Ok(out)
}

/// The vertices of a shell that aren't linked, by rising number. It takes no longer where they
/// lie far apart.
pub fn unlinked_vertices(
    alloc: Global,
    rows: &Rows,
    leasts: &[u32],
) -> Result<Vec<Unlinked>, NoMemory>
    requires { length leasts.now ≡ length rows.now.rows }
    ensures { IfOk result (λ out. out.items ≡ unlinked_of rows.now leasts.now) }
{
    let fans = fan_counts(alloc, rows, leasts)?;
    let points = point_counts(alloc, rows)?;
    unlinked_in(alloc, rows, &fans, &points, leasts)
}
