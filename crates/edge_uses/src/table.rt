//! The rows of a shell.

use crate::building::{Built, use_count};
use crate::row::Row;
use iges_base::NoMemory;
use solid_data::{EdgeId, LoopAt, RowId, Shell, Solid, Span, VertexId, occurring_numbers, span_of};
use std::alloc::Global;
use std::marker::Model;

/// The edge uses of a shell in file order, and what occurs in the shell. Rows are flat: the next row of each is a
/// number beside it, and nothing is taken for a loop or a row of its own.
#[derive(Drop)]
pub struct Rows {
    rows: Vec<Row>,
    next: Vec<u32>,
    faces: u32,
    edges: Vec<u32>,
    vertices: Vec<u32>,
    points: Vec<(LoopAt, u32)>,
}

impl Model for Rows {
    ghost use Rattle.edge_uses.specs.ShellRows.{ShellRows};

    ghost Value = { ShellRows };

    ghost use Rattle.edge_uses.specs.ShellRows.{AreRows};

    ghost view = { λ r. record { rows = r.rows.items; follows = r.next.items; face_count = r.faces; edges = r.edges.items; vertices = r.vertices.items; points = r.points.items } };

    ghost invariant = { λ r. AreRows (record { rows = r.rows.items; follows = r.next.items; face_count = r.faces; edges = r.edges.items; vertices = r.vertices.items; points = r.points.items }) };
}

impl Rows {
    ghost use Rattle.std.specs.Prelude.{◌≡◌, ℕ, ◌<◌, ◌^◌, length, slice_get, option_map, IfOk};
    ghost use Rattle.solid_data.specs.declared.TheConstants.{PART_LIMIT};
    ghost use Rattle.solid_data.specs.SolidData.{placed_loops};
    ghost use Rattle.solid_data.specs.declared.solid.LoopAt.{LoopAt as LoopPlace};
    ghost use Rattle.solid_data.specs.declared.solid.VertexId.{VertexId as AnyVertexId};
    ghost use Rattle.solid_data.specs.declared.solid.RowId.{RowId as AnyRowId};
    ghost use Rattle.solid_data.specs.declared.solid.EdgeId.{EdgeId as AnyEdgeId};
    ghost use Rattle.solid_data.specs.Ranges.{IsSpanOf};
    ghost use Rattle.edge_uses.specs.Joining.{IsFewShell};
    ghost use Rattle.edge_uses.specs.ShellRows.{AreRows, shell_rows, rows_of};
    ghost use Rattle.edge_uses.specs.Building.{uses_of, HasKnownParts};

    /// How many rows there are.
    pub fn len(&self) -> usize
        ensures count { result ≡ length self.now.rows }
        ensures kept { AreRows self.now }
    {
        self.rows.len()
    }

    /// A row, from 0 in file order; none past the end.
    pub fn row(&self, r: RowId) -> Option<Row>
        ensures { result ≡ slice_get self.now.rows r.0 }
    {
        self.rows.get(r.0 as usize).copied()
    }

    /// The row that follows a row: the next of its loop, cyclically, vertex uses passed over, or the one before in a
    /// loop that is walked backwards. None past the end.
    pub fn follows(&self, r: RowId) -> Option<RowId>
        ensures { option_map (λ (t : AnyRowId). t.0) result ≡ slice_get self.now.follows r.0 }
    {
        match self.next.get(r.0 as usize) {
            Some(next) => Some(RowId(*next)),
            None => None,
        }
    }

    /// How many edges occur in the shell.
    pub fn edge_count(&self) -> usize
        ensures { result ≡ length self.now.edges }
    {
        self.edges.len()
    }

    /// How many vertices occur in the shell, those of vertex uses among them.
    pub fn vertex_count(&self) -> usize
        ensures { result ≡ length self.now.vertices }
    {
        self.vertices.len()
    }

    /// How many faces the shell has.
    pub fn face_count(&self) -> usize
        ensures { result ≡ self.now.face_count }
    {
        self.faces as usize
    }

    /// The i-th vertex that occurs in the shell, by rising number, i from 0; None past the end.
    pub fn vertex_at(&self, i: usize) -> Option<VertexId>
        ensures { option_map (λ (v : AnyVertexId). v.0) result ≡ slice_get self.now.vertices i }
    {
        match self.vertices.get(i) {
            Some(vertex) => Some(VertexId(*vertex)),
            None => None,
        }
    }

    /// The i-th edge that occurs in the shell, by rising number, i from 0; None past the end.
    pub fn edge_at(&self, i: usize) -> Option<EdgeId>
        ensures { option_map (λ (e : AnyEdgeId). e.0) result ≡ slice_get self.now.edges i }
    {
        match self.edges.get(i) {
            Some(edge) => Some(EdgeId(*edge)),
            None => None,
        }
    }

    /// The shortest range that holds the edges that occur in the shell.
    pub fn edge_span(&self) -> Span
        ensures span { IsSpanOf result self.now.edges }
        ensures kept { AreRows self.now }
    {
        span_of(self.edge_slice())
    }

    /// The shortest range that holds the vertices that occur in the shell.
    pub fn vertex_span(&self) -> Span
        ensures { IsSpanOf result self.now.vertices }
    {
        span_of(self.vertex_slice())
    }

    /// How many loops have no edge, but vertex uses alone.
    pub fn isolated_count(&self) -> usize
        ensures { result ≡ length self.now.points }
    {
        self.points.len()
    }

    /// The i-th loop without an edge, in file order, i from 0, and the vertex of its first use; None past the end.
    pub fn isolated(&self, i: usize) -> Option<(LoopAt, VertexId)>
        ensures { option_map (λ (p : LoopPlace × AnyVertexId). (p.0, p.1.0)) result
            ≡ slice_get self.now.points i }
    {
        match self.points.get(i) {
            Some(point) => Some((point.0, VertexId(point.1))),
            None => None,
        }
    }

    pub(crate) fn row_slice(&self) -> &[Row]
        ensures { result.now ≡ self.now.rows }
    {
        self.rows.as_slice()
    }

    /// The edges that occur in the shell, by rising number.
    pub fn edge_slice(&self) -> &[u32]
        ensures items { result.now ≡ self.now.edges }
        ensures kept { AreRows self.now }
    {
        self.edges.as_slice()
    }

    /// The vertices that occur in the shell, by rising number.
    pub fn vertex_slice(&self) -> &[u32]
        ensures items { result.now ≡ self.now.vertices }
        ensures kept { AreRows self.now }
    {
        self.vertices.as_slice()
    }

    pub(crate) fn of_shell(alloc: Global, solid: &Solid, shell: &Shell) -> Result<Rows, NoMemory>
        requires known { HasKnownParts solid.now shell.now }
        requires few { IsFewShell shell.now }
        requires room { length (uses_of (placed_loops shell.now)) < PART_LIMIT }
        requires whole { AreRows (shell_rows solid.now shell.now) }
        ensures { IfOk result (λ r. r ≡ shell_rows solid.now shell.now) }
    {
        let mut built = Built::with_room(alloc, use_count(shell))?;
        built.add_shell(solid, shell)?;
        let edges = occurring_numbers(alloc, built.edges.as_slice())?;
        let vertices = occurring_numbers(alloc, built.vertices.as_slice())?;
        Ok(Rows {
            rows: built.rows,
            next: built.next,
            faces: shell.faces.as_slice().len() as u32,
            edges,
            vertices,
            points: built.points,
        })
    }
}
