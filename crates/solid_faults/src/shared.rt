//! The vertices of a shell that an earlier shell has.
//!
//! Vertices are numbered by first appearance, so those of the shells before are the ones below a
//! number. Whoever goes over the shells in order keeps this number alone.

ghost use Rattle.std.specs.Prelude.{◌≡◌, ◌↔◌, ◌<◌, ◌≤◌, ◌+◌, ◌++◌, ◌∷◌, [], ℕ, Bool, Some, IsTrue, Contains, flat_map, take, length, slice_get, IfOk, if◌then◌else◌};
ghost use Rattle.std.specs.List.{list_any};
ghost use Rattle.solid_data.specs.Numbering.{IsNumberedSolid};
ghost use Rattle.solid_data.specs.SolidData.{SolidData, shell_vertices};
ghost use Rattle.edge_uses.specs.Before.{AreBelow};
ghost use Rattle.edge_uses.specs.ShellRows.{rows_of};
ghost use Rattle.solid_faults.specs.Edges.{shared_of};

use edge_uses::{Rows, rows, vertex_at};
use iges_base::NoMemory;
use solid_data::{ShellAt, Solid, VertexId, push_if};
use std::alloc::Global;

/// One more than the greatest vertex of the shells before and of the next one, whose rows are given:
/// the vertices of all these are the ones below it.
pub fn below_next(below: usize, rows: &Rows) -> usize
    ensures { (s : SolidData) (k : ℕ) → IsNumberedSolid s → k < length s.shells → AreBelow s k below → rows.now ≡ rows_of s (slice_get s.shells k) →
        AreBelow s (k + 1) result }
{
    let _kept = rows.len();
    let count = rows.vertex_count();
    if count == 0 {
        return below;
    }
    let last = vertex_at(rows, count - 1);
    below.max(last.0 as usize + 1)
}

/// The number that the vertices of the shells before a shell lie below. It goes once over the
/// uses of these, and holds the rows of one at a time.
pub fn below_shell(alloc: Global, solid: &Solid, shell: ShellAt) -> Result<usize, NoMemory>
    requires { shell.0 ≤ length solid.now.shells }
    ensures { IfOk result (λ below. AreBelow solid.now shell.0 below) }
{
    solid.recall_numbering();
    let mut below = 0;
    'shells: for k in 0..shell.0 {
        let rows = rows(alloc, solid, ShellAt(k))?;
        below = below_next(below, &rows);
    }
    Ok(below)
}

// Whether a shell before has the vertex: the vertices of those are numbered below `below`.
fn is_below(vertex: VertexId, below: usize) -> bool
    ensures { (s : SolidData) (k : ℕ) → AreBelow s k below → IsTrue result
        ↔ Contains (flat_map (shell_vertices s) (take k s.shells)) vertex.0 }
{
    (vertex.0 as usize) < below
}

/// The vertices of the next shell, whose rows are given, that are among those of the shells before,
/// which are the ones below a number; by rising number.
pub fn shared_vertices(alloc: Global, below: usize, rows: &Rows) -> Result<Vec<u32>, NoMemory>
    ensures { IfOk result (λ out. (s : SolidData) (k : ℕ) → AreBelow s k below
        → out.items ≡ shared_of s k rows.now) }
{
    let mut out = Vec::new(alloc);
    'vertices: for i in 0..rows.vertex_count() {
        let vertex = vertex_at(rows, i);
        push_if(&mut out, is_below(vertex, below), vertex.0)?;
    }
    Ok(out)
}
