//! How many rows start at each vertex of a shell, and how many loops without an edge lie there.

ghost use Rattle.std.specs.Prelude.{◌≡◌, ℕ, ◌+◌, ◌<◌, [], Contains, Some, length, map, slice_get, IfOk};
ghost use Rattle.solid_data.specs.declared.solid.LoopAt.{LoopAt as LoopPlace};
ghost use Rattle.solid_data.specs.Cells.{cell_of, with_cell};
ghost use Rattle.solid_data.specs.Ranges.{IsWithin};
ghost use Rattle.edge_uses.specs.declared.row.Row.{Row as AnyRow};
ghost use Rattle.edge_uses.specs.ShellRows.{ShellRows};
ghost use Rattle.cert_state.specs.CheckState.{corner_size, is_alone};
ghost use Rattle.cert_state.specs.Tallied.{AreStarts, ArePoints, AreSizes};
ghost use Rattle.solid_data.specs.declared.TheConstants.{PART_LIMIT};

use edge_uses::{Rows, point_at, row_at};
use iges_base::NoMemory;
use solid_data::{Cells, VertexId};
use std::alloc::Global;

fn add_one(counts: &mut Cells<'_, u32>, vertex: VertexId)
    requires known { Contains counts.old.numbers vertex.0 }
    requires within { IsWithin counts.old.span vertex.0 }
    requires few { cell_of counts.old vertex.0 < PART_LIMIT }
    ensures { counts.new ≡ with_cell counts.old vertex.0 (cell_of counts.old vertex.0 + 1) }
{
    let count = counts.at(vertex.0);
    counts.set(vertex.0, count + 1);
}

/// How many rows start at each vertex of the range in which the vertices of the shell lie.
fn starts_of(alloc: Global, rows: &Rows) -> Result<Cells<'_, u32>, NoMemory>
    ensures { IfOk result (AreStarts rows.now) }
{
    let mut starts = Cells::new(alloc, rows.vertex_slice(), 0)?;
    'rows: for i in 0..rows.len() {
        add_one(&mut starts, row_at(rows, i).from);
    }
    Ok(starts)
}

/// How many loops without an edge lie at each vertex of that range.
fn points_of(alloc: Global, rows: &Rows) -> Result<Cells<'_, u32>, NoMemory>
    ensures { IfOk result (ArePoints rows.now) }
{
    let _count = rows.len();
    let mut points = Cells::new(alloc, rows.vertex_slice(), 0)?;
    'points: for i in 0..rows.isolated_count() {
        add_one(&mut points, point_at(rows, i).1);
    }
    Ok(points)
}

// The count of a vertex of the range.
fn count_at(tally: &Cells<'_, u32>, v: u32) -> u32
    requires { IsWithin tally.now.span v }
    ensures { result ≡ cell_of tally.now v }
{
    tally.at(v)
}

/// How many rows a corner line at a vertex has, or 0 where none fits there.
fn size_at(starts: &Cells<'_, u32>, points: &Cells<'_, u32>, v: u32) -> u32
    requires starts { IsWithin starts.now.span v }
    requires points { IsWithin points.now.span v }
    ensures { (d : ShellRows) → AreStarts d starts.now → ArePoints d points.now
        → result ≡ corner_size d v }
{
    if count_at(points, v) == 0 {
        count_at(starts, v)
    } else {
        0
    }
}

/// Whether no row starts at a vertex and one loop without an edge lies there.
fn alone_at(starts: &Cells<'_, u32>, points: &Cells<'_, u32>, v: u32) -> bool
    requires starts { IsWithin starts.now.span v }
    requires points { IsWithin points.now.span v }
    ensures { (d : ShellRows) → AreStarts d starts.now → ArePoints d points.now
        → result ≡ is_alone d v }
{
    count_at(starts, v) == 0 && count_at(points, v) == 1
}

/// For each row how many rows a corner line has that starts with it, or 0 where none fits.
fn corner_sizes(
    alloc: Global,
    rows: &Rows,
    starts: &Cells<'_, u32>,
    points: &Cells<'_, u32>,
) -> Result<Vec<u32>, NoMemory>
    requires starts { AreStarts rows.now starts.now }
    requires points { ArePoints rows.now points.now }
    ensures { IfOk result (λ sizes. sizes.items
        ≡ map (λ (r : AnyRow). corner_size rows.now r.from.0) rows.now.rows) }
{
    let mut sizes = Vec::with_capacity(alloc, rows.len())?;
    'rows: for i in 0..rows.len() {
        sizes.push(size_at(starts, points, row_at(rows, i).from.0))?;
    }
    Ok(sizes)
}

/// The same where each loop has an edge: all rows that start where it does.
fn start_sizes(alloc: Global, rows: &Rows, starts: &Cells<'_, u32>) -> Result<Vec<u32>, NoMemory>
    requires starts { AreStarts rows.now starts.now }
    requires edges { rows.now.points ≡ [] }
    ensures { IfOk result (λ sizes. sizes.items
        ≡ map (λ (r : AnyRow). corner_size rows.now r.from.0) rows.now.rows) }
{
    let mut sizes = Vec::with_capacity(alloc, rows.len())?;
    'rows: for i in 0..rows.len() {
        sizes.push(count_at(starts, row_at(rows, i).from.0))?;
    }
    Ok(sizes)
}

/// For each loop without an edge whether it is alone at its vertex.
fn alone_points(
    alloc: Global,
    rows: &Rows,
    starts: &Cells<'_, u32>,
    points: &Cells<'_, u32>,
) -> Result<Vec<bool>, NoMemory>
    requires starts { AreStarts rows.now starts.now }
    requires points { ArePoints rows.now points.now }
    ensures { IfOk result (λ alone. alone.items
        ≡ map (λ (p : LoopPlace × ℕ). is_alone rows.now p.1) rows.now.points) }
{
    let mut alone = Vec::with_capacity(alloc, rows.isolated_count())?;
    'points: for i in 0..rows.isolated_count() {
        alone.push(alone_at(starts, points, point_at(rows, i).1.0))?;
    }
    Ok(alone)
}

/// For each row the size of a corner line that starts with it, and for each loop without an edge whether it is alone.
#[derive(Drop)]
pub struct Sizes {
    /// By row, from 0: how many rows start where it starts, or 0 where a loop without an edge lies there too.
    pub rows: Vec<u32>,
    /// By loop without an edge, in file order.
    pub alone: Vec<bool>,
}

// What corner and point lines are compared with, by how many rows start at each vertex and how many loops without an edge
// lie there.
fn both_sizes(
    alloc: Global,
    rows: &Rows,
    starts: &Cells<'_, u32>,
    points: &Cells<'_, u32>,
) -> Result<Sizes, NoMemory>
    requires starts { AreStarts rows.now starts.now }
    requires points { ArePoints rows.now points.now }
    ensures { IfOk result (AreSizes rows.now) }
{
    let sizes = corner_sizes(alloc, rows, starts, points)?;
    let alone = alone_points(alloc, rows, starts, points)?;
    Ok(Sizes { rows: sizes, alone })
}

// What corner and point lines are compared with, by how many rows start at each vertex.
fn sizes_by(alloc: Global, rows: &Rows, starts: &Cells<'_, u32>) -> Result<Sizes, NoMemory>
    requires { AreStarts rows.now starts.now }
    ensures { IfOk result (AreSizes rows.now) }
{
    if rows.isolated_count() == 0 {
        return Ok(Sizes {
            rows: start_sizes(alloc, rows, starts)?,
            alone: Vec::new(alloc),
        });
    }
    let points = points_of(alloc, rows)?;
    both_sizes(alloc, rows, starts, &points)
}

/// What corner and point lines of a shell are compared with. It takes no longer where the vertices of
/// the shell lie far apart.
pub fn sizes_of(alloc: Global, rows: &Rows) -> Result<Sizes, NoMemory>
    ensures rows { IfOk result (λ s. s.rows.items
        ≡ map (λ (r : AnyRow). corner_size rows.now r.from.0) rows.now.rows) }
    ensures alone { IfOk result (λ s. s.alone.items
        ≡ map (λ (p : LoopPlace × ℕ). is_alone rows.now p.1) rows.now.points) }
{
    let starts = starts_of(alloc, rows)?;
    sizes_by(alloc, rows, &starts)
}
