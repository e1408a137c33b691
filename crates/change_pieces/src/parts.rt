//! The solid of the shells that were made, if they are numbered.

ghost use Rattle.std.specs.Prelude.{◌≡◌, ◌<◌, ◌^◌, IsTrue, IfOk, IfSome, Some, length};
ghost use Rattle.change_pieces.specs.Numbered.{AreNumbered};
ghost use Rattle.solid_data.specs.Numbering.{IsNumberedSolid};

use crate::numbering::{edges_appear, keys_climb, own_vertices, vertices_appear};
use crate::uses::{are_filled, uses_of};
use iges_base::{EntryNo, NoMemory};
use solid_data::{Edge, Edges, PART_LIMIT, Shell, Shells, Solid};
use std::alloc::Global;

fn is_count(found: Option<usize>, count: usize) -> bool
    ensures { IsTrue result → found ≡ Some count }
{
    match found {
        None => false,
        Some(found) => found == count,
    }
}

// Whether all that a numbered solid keeps holds, of its edges and of so many vertices.
fn are_numbered(
    alloc: Global,
    shells: &[Shell],
    edges: &[Edge],
    vertex_count: usize,
) -> Result<bool, NoMemory>
    ensures { IfOk result (λ numbered. IsTrue numbered → AreNumbered shells.now edges.now vertex_count) }
{
    if !are_filled(shells) {
        return Ok(false);
    }
    if !keys_climb(edges) {
        return Ok(false);
    }
    let all = uses_of(alloc, shells)?;
    let uses = all.as_slice();
    if uses.len() >= PART_LIMIT as usize {
        return Ok(false);
    }
    let edge_count = edges_appear(uses);
    if !is_count(edge_count, edges.len()) {
        return Ok(false);
    }
    let found = vertices_appear(edges, uses);
    Ok(is_count(found, vertex_count))
}

/// The solid of these shells and edges, with so many vertices; None where it isn't numbered.
pub(crate) fn numbered_solid(
    alloc: Global,
    entity: EntryNo,
    shells: Shells,
    edges: Edges,
    vertex_count: usize,
) -> Result<Option<Solid>, NoMemory>
    requires { entity.0 < 10 ^ 9 }
    ensures { IfOk result (λ made. IfSome made (λ t. (t.shells ≡ shells) × (t.edges ≡ edges) × (length t.vertices ≡ vertex_count))) }
{
    let shell_slice = shells.as_slice();
    let edge_slice = edges.as_slice();
    let numbered = are_numbered(alloc, shell_slice, edge_slice, vertex_count)?;
    if !numbered {
        return Ok(None);
    }
    let vertices = own_vertices(alloc, vertex_count)?;
    Ok(Some(Solid::new(entity, shells, edges, vertices)))
}
