//! The curves of edges.

ghost use Rattle.solid_geometry.specs.Curves.{curve_of, curves_of};
ghost use Rattle.std.specs.Prelude.{◌≡◌, ◌<◌, ◌^◌, IfOk, Some, length, slice_get};

use crate::values::int_of;
use iges_base::NoMemory;
use iges_params::File;
use solid_data::{Edge, EdgeId, Solid, VertexId, VertexKey};
use std::alloc::Global;

#[tactic(auto, unfolding(crate::specs::Curves::curve_of))]
fn curve_of(file: &File, edge: Edge) -> i64
    ensures { result ≡ curve_of file.now edge }
{
    let place = (5 * edge.key.index as usize).saturating_sub(4);
    match file.values(edge.key.list) {
        Some(values) => int_of(values.get(place)),
        None => int_of(None),
    }
}

fn edge_at(solid: &Solid, i: usize) -> Edge
    requires inside { i < length solid.now.edges }
    requires few { i < 2 ^ 32 }
    ensures { slice_get solid.now.edges i ≡ Some result }
{
    *solid.edge(EdgeId(i as u32)).unwrap()
}

/// The entry of the curve of each edge.
pub fn curves_of(alloc: Global, file: &File, solid: &Solid) -> Result<Vec<i64>, NoMemory>
    ensures { IfOk result (λ curves. curves.items ≡ curves_of file.now solid.now.edges) }
{
    let count = solid.edge_count();
    if count > u32::MAX as usize {
        return Err(NoMemory);
    }
    let mut curves = Vec::with_capacity(alloc, count)?;
    'edges: for i in 0..count {
        curves.push(curve_of(file, edge_at(solid, i)))?;
    }
    Ok(curves)
}

fn vertex_at(solid: &Solid, i: usize) -> VertexKey
    requires inside { i < length solid.now.vertices }
    requires few { i < 2 ^ 32 }
    ensures { slice_get solid.now.vertices i ≡ Some result }
{
    solid.vertex(VertexId(i as u32)).unwrap()
}

/// What each vertex is in the file.
pub fn vertices_of(alloc: Global, solid: &Solid) -> Result<Vec<VertexKey>, NoMemory>
    ensures { IfOk result (λ vertices. vertices.items ≡ solid.now.vertices) }
{
    let count = solid.vertex_count();
    if count > u32::MAX as usize {
        return Err(NoMemory);
    }
    let mut vertices = Vec::with_capacity(alloc, count)?;
    'vertices: for i in 0..count {
        vertices.push(vertex_at(solid, i))?;
    }
    Ok(vertices)
}
