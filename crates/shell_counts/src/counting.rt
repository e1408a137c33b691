//! Counting what a shell uses, without its rows.

ghost use Rattle.std.specs.Prelude.{◌≡◌, ◌<◌, IfOk, flat_map, length, slice_get};
ghost use Rattle.edge_uses.specs.Before.{face_vertices};
ghost use Rattle.edge_uses.specs.ShellRows.{rows_of};
ghost use Rattle.shell_components.specs.FaceUses.{face_edges};
ghost use Rattle.shell_counts.specs.Counts.{AreCounts};

use iges_base::NoMemory;
use shell_components::{Used, add_face, nothing_used};
use solid_data::{FaceUse, ShellAt, Solid, occurring_numbers};
use std::alloc::Global;

/// How many edge uses a shell has, and how many edges and vertices occur in it.
#[derive(Drop)]
pub struct ShellCounts {
    /// An edge counts as often as a loop of the shell names it.
    pub uses: usize,
    /// Each edge counts once.
    pub edges: usize,
    /// Each vertex counts once.
    pub vertices: usize,
}

// What some faces use.
fn used_by_all(alloc: Global, solid: &Solid, faces: &[FaceUse]) -> Result<Used, NoMemory>
    ensures edges { IfOk result (λ used. used.edges.items ≡ flat_map face_edges faces.now) }
    ensures vertices { IfOk result (λ used. used.vertices.items
        ≡ flat_map (face_vertices solid.now) faces.now) }
{
    let mut used = nothing_used(alloc);
    'faces: for i in 0..faces.len() {
        add_face(solid, &faces[i], &mut used)?;
    }
    Ok(used)
}

/// The counts of a shell of a solid. It errs only where memory runs out.
pub fn shell_counts(alloc: Global, solid: &Solid, at: ShellAt) -> Result<ShellCounts, NoMemory>
    requires { at.0 < length solid.now.shells }
    ensures { IfOk result (λ counts. AreCounts counts
        (rows_of solid.now (slice_get solid.now.shells at.0))) }
{
    let shell = solid.shell(at).unwrap();
    let used = used_by_all(alloc, solid, shell.faces.as_slice())?;
    let edges = occurring_numbers(alloc, used.edges.as_slice())?;
    let vertices = occurring_numbers(alloc, used.vertices.as_slice())?;
    Ok(ShellCounts {
        uses: used.edges.len(),
        edges: edges.len(),
        vertices: vertices.len(),
    })
}
