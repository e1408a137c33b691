//! Names of edges and of vertices, each with a number.

ghost use Rattle.std.specs.Prelude.{◌≡◌, ◌<◌, ◌+◌, ◌^◌, IsTrue, IfOk, Some, slice_get};
ghost use Rattle.change_pieces.specs.Names.{StandOnce};
ghost use Rattle.change_pieces.specs.OneName.{edge_name, vertex_name};

use crate::name_places::Places;
use iges_base::NoMemory;
use shell_change::{EdgeName, VertexName, item_at};
use std::alloc::Global;

/// What is old or new by its number.
#[derive(Clone, Copy, PartialEq, Eq, Hash)]
pub(crate) enum Name {
    Old(u32),
    New(u32),
}

fn name_of_edge(edge: EdgeName) -> Name
    ensures { result ≡ edge_name edge }
{
    match edge {
        EdgeName::Old(edge) => Name::Old(edge.0),
        EdgeName::New(i) => Name::New(i),
    }
}

fn name_of_vertex(vertex: VertexName) -> Name
    ensures { result ≡ vertex_name vertex }
{
    match vertex {
        VertexName::Old(vertex) => Name::Old(vertex.0),
        VertexName::New(i) => Name::New(i),
    }
}

/// The number, which is less than the greatest.
pub(crate) fn narrow(n: usize) -> Result<u32, NoMemory>
    ensures { IfOk result (λ m. m + 1 < 2 ^ 32) }
{
    if n >= u32::MAX as usize {
        return Err(NoMemory);
    }
    Ok(n as u32)
}

/// Edges, each with its place for its number.
#[derive(Drop)]
pub(crate) struct EdgeNames {
    pub names: Vec<EdgeName>,
    pub places: Places,
}

/// Vertices, each with its place for its number.
#[derive(Drop)]
pub(crate) struct VertexNames {
    pub names: Vec<VertexName>,
    pub places: Places,
}

impl EdgeNames {
    ghost use Rattle.std.specs.Prelude.{◌<◌, ◌+◌, ◌^◌, IfOk};

    pub(crate) fn new(alloc: Global, places: Places) -> EdgeNames {
        EdgeNames {
            names: Vec::new(alloc),
            places,
        }
    }

    /// The number of an edge, and whether it had none before.
    pub(crate) fn number(&mut self, edge: EdgeName) -> Result<(u32, bool), NoMemory>
        ensures { IfOk result (λ r. r.0 + 1 < 2 ^ 32) }
    {
        let (place, is_new) = self.places.place(name_of_edge(edge), self.names.len())?;
        if is_new {
            self.names.push(edge)?;
        }
        Ok((place, is_new))
    }
}

impl VertexNames {
    pub(crate) fn new(alloc: Global, places: Places) -> VertexNames {
        VertexNames {
            names: Vec::new(alloc),
            places,
        }
    }

    /// The number of a vertex.
    pub(crate) fn number(&mut self, vertex: VertexName) -> Result<u32, NoMemory> {
        let (place, is_new) = self.places.place(name_of_vertex(vertex), self.names.len())?;
        if is_new {
            self.names.push(vertex)?;
        }
        Ok(place)
    }
}

/// Whether no edge stands twice.
pub(crate) fn edges_once(edges: &EdgeNames) -> bool
    ensures { IsTrue result → StandOnce edges.now.names.items }
{
    let names = edges.names.as_slice();
    'names: for i in 0..names.len() {
        if !edges.places.is_place(name_of_edge(*item_at(names, i)), i) {
            return false;
        }
    }
    true
}

/// Whether no vertex stands twice.
pub(crate) fn vertices_once(vertices: &VertexNames) -> bool
    ensures { IsTrue result → StandOnce vertices.now.names.items }
{
    let names = vertices.names.as_slice();
    'names: for i in 0..names.len() {
        if !vertices
            .places
            .is_place(name_of_vertex(*item_at(names, i)), i)
        {
            return false;
        }
    }
    true
}
