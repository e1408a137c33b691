//! Where edges start and end, by names.

ghost use Rattle.std.specs.Prelude.{◌≡◌, ◌<◌, IsTrue, Some, length, option_copied, slice_get};
ghost use Rattle.shell_change.specs.Matching.{Matched};
ghost use Rattle.change_pieces.specs.Names.{old_ends as ends_of_old, new_ends as ends_of_new, ends_named as ends_of, HasEnds};

use crate::comparing::is_vertex;
use shell_change::{Change, EdgeName, NewEdge, VertexName, item_at};
use solid_data::{Edge, Solid};

/// The vertices at which an edge starts and ends.
#[derive(Clone, Copy)]
pub(crate) struct NamedEnds {
    pub from: VertexName,
    pub to: VertexName,
}

fn old_ends(edge: Option<&Edge>) -> Option<NamedEnds>
    ensures { result ≡ ends_of_old (option_copied edge.entry) }
{
    match edge {
        None => None,
        Some(edge) => Some(NamedEnds {
            from: VertexName::Old(edge.from),
            to: VertexName::Old(edge.to),
        }),
    }
}

fn new_ends(edge: Option<&NewEdge>) -> Option<NamedEnds>
    ensures { result ≡ ends_of_new (option_copied edge.entry) }
{
    match edge {
        None => None,
        Some(edge) => Some(NamedEnds {
            from: edge.from,
            to: edge.to,
        }),
    }
}

/// The ends of an edge; None where there is no such edge.
pub(crate) fn ends_named(solid: &Solid, change: &Change, edge: EdgeName) -> Option<NamedEnds>
    ensures { result ≡ ends_of solid.now change.now edge }
{
    match edge {
        EdgeName::Old(edge) => old_ends(solid.edge(edge)),
        EdgeName::New(i) => new_ends(change.edges.get(i as usize)),
    }
}

fn has_named(vertices: &[VertexName], ends: NamedEnds, edge: &Edge) -> bool
    ensures { IsTrue result → HasEnds vertices.now (Some ends) edge.now }
{
    is_vertex(vertices, edge.from.0, ends.from) && is_vertex(vertices, edge.to.0, ends.to)
}

fn has_ends(vertices: &[VertexName], ends: Option<NamedEnds>, edge: &Edge) -> bool
    ensures { IsTrue result → HasEnds vertices.now ends edge.now }
{
    match ends {
        None => false,
        Some(ends) => has_named(vertices, ends, edge),
    }
}

/// Whether edges by numbers have the ends of the edges that they stand for.
pub(crate) fn have_ends(
    solid: &Solid,
    change: &Change,
    vertices: &[VertexName],
    names: &[EdgeName],
    edges: &[Edge],
) -> bool
    ensures { IsTrue result → Matched (λ name e. HasEnds vertices.now (ends_of solid.now change.now name) e) names.now edges.now }
{
    if names.len() != edges.len() {
        return false;
    }
    'edges: for i in 0..edges.len() {
        let name = item_at(names, i);
        let edge = item_at(edges, i);
        if !has_ends(vertices, ends_named(solid, change, *name), edge) {
            return false;
        }
    }
    true
}
