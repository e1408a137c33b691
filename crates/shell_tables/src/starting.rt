//! How many rows start at each vertex, and how many loops without an edge lie there.

ghost use Rattle.std.specs.Prelude.{◌≡◌, ◌<◌, Contains, IfOk};
ghost use Rattle.solid_data.specs.Cells.{cell_of, with_cell};
ghost use Rattle.solid_data.specs.Ranges.{IsWithin};
ghost use Rattle.edge_uses.specs.ShellRows.{ShellRows};
ghost use Rattle.shell_tables.specs.Starting.{one_start_more, one_point_more, AreStartCells, ArePointCells, AreStarts, ArePoints};
ghost use Rattle.solid_data.specs.declared.TheConstants.{PART_LIMIT};

use edge_uses::{Rows, point_at, row_at};
use iges_base::NoMemory;
use solid_data::{Cells, FaceAt, LoopAt, VertexId};
use std::alloc::Global;

/// How many rows start at a vertex, and the first of them, from 0; 0 too where none does.
#[derive(Clone, Copy)]
pub struct Starts {
    pub count: u32,
    pub first: u32,
}

/// How many loops without an edge lie at a vertex, and the last of them.
#[derive(Clone, Copy)]
pub struct Points {
    pub count: u32,
    /// Its face and its place in the face, from 0; both are 0 where there is none.
    pub last: LoopAt,
}

const NO_STARTS: Starts = Starts { count: 0, first: 0 };

const NO_POINTS: Points = Points {
    count: 0,
    last: LoopAt {
        face: FaceAt(0),
        place: 0,
    },
};

// Counts one more row that starts at the vertex; the first of them is kept.
fn one_start(starts: Starts, r: u32) -> Starts
    requires { starts.count < PART_LIMIT }
    ensures { result ≡ one_start_more starts r }
{
    Starts {
        count: starts.count + 1,
        first: if starts.count == 0 { r } else { starts.first },
    }
}

// Counts one more loop without an edge; the last of them is kept.
fn one_point(points: Points, at: LoopAt) -> Points
    requires { points.count < PART_LIMIT }
    ensures { result ≡ one_point_more points at }
{
    Points {
        count: points.count + 1,
        last: at,
    }
}

fn note_start(starts: &mut Cells<'_, Starts>, vertex: VertexId, r: u32)
    requires known { Contains starts.old.numbers vertex.0 }
    requires within { IsWithin starts.old.span vertex.0 }
    requires few { (cell_of starts.old vertex.0).count < PART_LIMIT }
    ensures { starts.new ≡ with_cell starts.old vertex.0
        (one_start_more (cell_of starts.old vertex.0) r) }
{
    let seen = starts.at(vertex.0);
    starts.set(vertex.0, one_start(seen, r));
}

fn note_point(points: &mut Cells<'_, Points>, vertex: VertexId, at: LoopAt)
    requires known { Contains points.old.numbers vertex.0 }
    requires within { IsWithin points.old.span vertex.0 }
    requires few { (cell_of points.old vertex.0).count < PART_LIMIT }
    ensures { points.new ≡ with_cell points.old vertex.0
        (one_point_more (cell_of points.old vertex.0) at) }
{
    let seen = points.at(vertex.0);
    points.set(vertex.0, one_point(seen, at));
}

/// How many rows start at each vertex of the range in which the vertices of the shell lie. It takes no longer where
/// they lie far apart.
pub fn all_starts(alloc: Global, rows: &Rows) -> Result<Cells<'_, Starts>, NoMemory>
    ensures { IfOk result (AreStartCells rows.now) }
{
    let mut starts = Cells::new(alloc, rows.vertex_slice(), NO_STARTS)?;
    'rows: for i in 0..rows.len() {
        note_start(&mut starts, row_at(rows, i).from, i as u32);
    }
    Ok(starts)
}

/// How many loops without an edge lie at each vertex of the range in which the vertices of the shell lie. It takes no
/// longer where they lie far apart.
pub fn all_points(alloc: Global, rows: &Rows) -> Result<Cells<'_, Points>, NoMemory>
    ensures { IfOk result (ArePointCells rows.now) }
{
    // Its clause says that the loops without an edge are few.
    let _len = rows.len();
    let mut points = Cells::new(alloc, rows.vertex_slice(), NO_POINTS)?;
    'points: for i in 0..rows.isolated_count() {
        let (at, vertex) = point_at(rows, i);
        note_point(&mut points, vertex, at);
    }
    Ok(points)
}

/// How many rows start at a vertex of the range, and the first of them.
pub fn starts_at(starts: &Cells<'_, Starts>, vertex: u32) -> Starts
    requires { IsWithin starts.now.span vertex }
    ensures { (d : ShellRows) → AreStartCells d starts.now → AreStarts d vertex result }
{
    starts.at(vertex)
}

/// How many loops without an edge lie at a vertex of the range, and the last of them.
pub fn points_at(points: &Cells<'_, Points>, vertex: u32) -> Points
    requires { IsWithin points.now.span vertex }
    ensures { (d : ShellRows) → ArePointCells d points.now → ArePoints d vertex result }
{
    points.at(vertex)
}
