//! The edges and the vertices that faces use.

ghost use Rattle.std.specs.Prelude.{◌≡◌, ◌∷◌, [], IfOk};
ghost use Rattle.edge_uses.specs.Before.{face_vertices};
ghost use Rattle.shell_components.specs.FaceUses.{face_edges, AddedFaces};

use edge_uses::push_all_used;
use iges_base::NoMemory;
use solid_data::{FaceUse, Solid};
use std::alloc::Global;

/// The edges and the vertices of some faces, each once for each use.
#[derive(Drop)]
pub struct Used {
    /// Numbers of edges of the solid, from 0: one for each edge use.
    pub edges: Vec<u32>,
    /// Numbers of vertices of the solid, from 0: start and end of each edge use's edge, and each vertex use's vertex.
    pub vertices: Vec<u32>,
}

/// None yet.
pub fn nothing_used(alloc: Global) -> Used
    ensures edges { result.edges.items ≡ [] }
    ensures vertices { result.vertices.items ≡ [] }
{
    Used {
        edges: Vec::new(alloc),
        vertices: Vec::new(alloc),
    }
}

/// Adds what a face uses, in the order of its loops and their tuples (IGES 5.3, 4.147 and 4.148).
pub fn add_face(solid: &Solid, face: &FaceUse, used: &mut Used) -> Result<(), NoMemory>
    ensures { IfOk result (λ _. AddedFaces solid.now used.old used.new (face.now ∷ [])) }
{
    let loops = face.loops.as_slice();
    'loops: for i in 0..loops.len() {
        push_all_used(solid, &loops[i], &mut used.edges, &mut used.vertices)?;
    }
    Ok(())
}

/// What one face uses, and nothing else.
pub fn used_by(solid: &Solid, face: &FaceUse, used: &mut Used) -> Result<(), NoMemory>
    ensures edges { IfOk result (λ _. used.new.edges.items ≡ face_edges face.now) }
    ensures vertices { IfOk result (λ _. used.new.vertices.items
        ≡ face_vertices solid.now face.now) }
{
    used.edges.clear();
    used.vertices.clear();
    add_face(solid, face, used)
}
