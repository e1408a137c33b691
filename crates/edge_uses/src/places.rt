//! The rows, the vertices and the loops without an edge of a shell, by place.

ghost use Rattle.std.specs.Prelude.{◌≡◌, ◌<◌, Some, length, slice_get};
ghost use Rattle.edge_uses.specs.RowRelations.{Turns};

use crate::paired::Paired;
use crate::row::Row;
use crate::table::Rows;
use solid_data::{LoopAt, RowId, VertexId};

/// The i-th row, from 0, which there must be.
#[inline(always)]
pub fn row_at(rows: &Rows, i: usize) -> Row
    requires { i < length rows.now.rows }
    ensures { slice_get rows.now.rows i ≡ Some result }
{
    // Its clause says that the rows are fewer than 2^32.
    let _len = rows.len();
    rows.row(RowId(i as u32)).unwrap()
}

/// The i-th vertex that occurs in the shell, by rising number, i from 0, which there must be.
#[inline(always)]
pub fn vertex_at(rows: &Rows, i: usize) -> VertexId
    requires { i < length rows.now.vertices }
    ensures { slice_get rows.now.vertices i ≡ Some result.0 }
{
    rows.vertex_at(i).unwrap()
}

/// The i-th loop without an edge, in file order, i from 0, which there must be, and its vertex.
#[inline(always)]
pub fn point_at(rows: &Rows, i: usize) -> (LoopAt, VertexId)
    requires { i < length rows.now.points }
    ensures { slice_get rows.now.points i ≡ Some (result.0, result.1.0) }
{
    rows.isolated(i).unwrap()
}

/// The row that a row turns to; both count from 0.
pub fn turned(paired: &Paired<'_>, r: u32) -> u32
    requires { r < length paired.now.rows }
    ensures { Turns paired.now r result }
{
    paired.turn(RowId(r)).unwrap().0
}
