//! The pieces of a changed shell as a solid.

ghost use Rattle.std.specs.Prelude.{◌≡◌, ◌<◌, IsTrue, IfOk, IfSome, length};
ghost use Rattle.change_pieces.specs.Named.{AreNamed};
ghost use Rattle.change_pieces.specs.Pieces.{ArePieces};

use crate::ends::have_ends;
use crate::gathering::{are_pieces, rims_within};
use crate::making::{Made, make_pieces};
use crate::names::{edges_once, vertices_once};
use crate::parts::numbered_solid;
use crate::placing::{piece_count, places_of_pieces};
use iges_base::NoMemory;
use shell_change::{Change, EdgeName, VertexName};
use solid_data::Solid;
use std::alloc::Global;

/// Pieces as the shells of a solid, and what its numbers stand for.
#[derive(Drop)]
pub struct Pieces {
    pub solid: Solid,
    pub edges: Vec<EdgeName>,
    pub vertices: Vec<VertexName>,
}

// Whether what was made is what the change names.
fn are_named(
    alloc: Global,
    solid: &Solid,
    change: &Change,
    flag: bool,
    made: &Made,
) -> Result<bool, NoMemory>
    ensures { IfOk result (λ named. IsTrue named → AreNamed solid.now change.now flag made.now.vertex_names.names.items
        made.now.edge_names.names.items made.now.shells made.now.edges) }
{
    let fates = change.faces.as_slice();
    let rims = change.rims.as_slice();
    let shells = made.shells.as_slice();
    let count = piece_count(fates);
    if shells.len() != count {
        return Ok(false);
    }
    if !rims_within(rims, count) {
        return Ok(false);
    }
    if !edges_once(&made.edge_names) {
        return Ok(false);
    }
    if !vertices_once(&made.vertex_names) {
        return Ok(false);
    }
    let vertices = made.vertex_names.names.as_slice();
    let names = made.edge_names.names.as_slice();
    let edges = made.edges.as_slice();
    if !have_ends(solid, change, vertices, names, edges) {
        return Ok(false);
    }
    let named = are_pieces(alloc, shells, vertices, names, flag, change)?;
    Ok(named)
}

// The solid of what was made.
fn assembled(alloc: Global, solid: &Solid, made: Made) -> Result<Option<Pieces>, NoMemory>
    ensures { IfOk result (λ o. IfSome o (λ p. (p.vertices.items ≡ made.vertex_names.names.items) × (p.edges.items ≡ made.edge_names.names.items)
        × (p.solid.shells ≡ made.shells) × (p.solid.edges ≡ made.edges) × (length p.solid.vertices ≡ length p.vertices.items))) }
{
    let entity = solid.entity();
    let Made {
        shells,
        edges,
        edge_names,
        vertex_names,
    } = made;
    let count = vertex_names.names.len();
    match numbered_solid(alloc, entity, shells, edges, count)? {
        None => Ok(None),
        Some(solid) => Ok(Some(Pieces {
            solid,
            edges: edge_names.names,
            vertices: vertex_names.names,
        })),
    }
}

/// The pieces of a changed shell with this flag, of which there must be some; None where the change doesn't fit.
pub fn pieces_of(
    alloc: Global,
    solid: &Solid,
    change: &Change,
    flag: bool,
) -> Result<Option<Pieces>, NoMemory>
    ensures named { IfOk result (λ o. IfSome o (λ p. ArePieces solid.now change.now flag p.vertices.items p.edges.items p.solid)) }
    ensures some { IfOk result (λ o. IfSome o (λ p. 0 < length p.solid.shells)) }
{
    let count = piece_count(change.faces.as_slice());
    if count == 0 || count > change.faces.len() {
        return Ok(None);
    }
    let places = places_of_pieces(alloc, change, count)?;
    let made = make_pieces(alloc, solid, change, flag, places.as_slice())?;
    if !are_named(alloc, solid, change, flag, &made)? {
        return Ok(None);
    }
    assembled(alloc, solid, made)
}
