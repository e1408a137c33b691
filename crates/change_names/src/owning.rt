//! Whether one item of a change names old edges and vertices of the shell alone.

ghost use Rattle.std.specs.Prelude.{◌≡◌, ◌↔◌, IsTrue, Contains, Some, slice_get};
ghost use Rattle.std.specs.List.Sorted.{IsStrictlyIncreasing};
ghost use Rattle.change_names.specs.Names.{EdgeIsOwn, VertexIsOwn, UseIsOwn, NewEdgeIsOwn, SeamIsOwn};

use edge_uses::Rows;
use shell_change::{EdgeName, NewEdge, NewVertex, Seam, UseNow, VertexName};
use solid_data::{EdgeId, VertexId, place_of};

// Whether a number stands at this place of a list.
fn stands_at(numbers: &[u32], place: u32, n: u32) -> bool
    ensures { IsTrue result → slice_get numbers.now place ≡ Some n }
{
    match numbers.get(place as usize) {
        None => false,
        Some(own) => *own == n,
    }
}

// Where a number of a list stands that leaves out none between its first one and this one.
fn near_place(numbers: &[u32], n: u32) -> u32 {
    match numbers.first() {
        None => 0,
        Some(first) => n.saturating_sub(*first),
    }
}

/// Whether a number is in a list that rises.
pub fn is_among(numbers: &[u32], n: u32) -> bool
    requires { IsStrictlyIncreasing numbers.now }
    ensures { IsTrue result ↔ Contains numbers.now n }
{
    if stands_at(numbers, near_place(numbers, n), n) {
        return true;
    }
    match place_of(numbers, n) {
        Some(_) => true,
        None => false,
    }
}

fn has_edge(rows: &Rows, edge: EdgeId) -> bool
    ensures { IsTrue result ↔ Contains rows.now.edges edge.0 }
{
    is_among(rows.edge_slice(), edge.0)
}

fn has_vertex(rows: &Rows, vertex: VertexId) -> bool
    ensures { IsTrue result ↔ Contains rows.now.vertices vertex.0 }
{
    is_among(rows.vertex_slice(), vertex.0)
}

fn edge_is_own(rows: &Rows, edge: EdgeName) -> bool
    ensures { IsTrue result ↔ EdgeIsOwn rows.now edge }
{
    match edge {
        EdgeName::Old(edge) => has_edge(rows, edge),
        EdgeName::New(_) => true,
    }
}

fn vertex_is_own(rows: &Rows, vertex: VertexName) -> bool
    ensures { IsTrue result ↔ VertexIsOwn rows.now vertex }
{
    match vertex {
        VertexName::Old(vertex) => has_vertex(rows, vertex),
        VertexName::New(_) => true,
    }
}

pub(crate) fn use_is_own(rows: &Rows, item: UseNow) -> bool
    ensures { IsTrue result ↔ UseIsOwn rows.now item }
{
    match item {
        UseNow::OnEdge(item) => edge_is_own(rows, item.edge),
        UseNow::AtVertex { vertex, .. } => vertex_is_own(rows, vertex),
    }
}

pub(crate) fn new_edge_is_own(rows: &Rows, item: NewEdge) -> bool
    ensures { IsTrue result ↔ NewEdgeIsOwn rows.now item }
{
    has_edge(rows, item.like) && vertex_is_own(rows, item.from) && vertex_is_own(rows, item.to)
}

pub(crate) fn new_vertex_is_own(rows: &Rows, item: NewVertex) -> bool
    ensures { IsTrue result ↔ Contains rows.now.vertices item.like.0 }
{
    has_vertex(rows, item.like)
}

pub(crate) fn seam_is_own(rows: &Rows, item: Seam) -> bool
    ensures { IsTrue result ↔ SeamIsOwn rows.now item }
{
    has_edge(rows, item.left) && has_edge(rows, item.taken)
}
