//! Whether each new edge and each new vertex of a change is named by a use.

ghost use Rattle.std.specs.Prelude.{◌≡◌, ◌↔◌, ◌++◌, IsTrue, IfOk, filter_map, flat_map};
ghost use Rattle.std.specs.Option.{option_to_list};
ghost use Rattle.change_names.specs.Names.{uses_after as all_after};
ghost use Rattle.change_fits.specs.NewNames.{new_edge as edge_number, new_vertex as vertex_number, new_edge_of as use_edge, new_vertex_of as use_vertex, new_ends, new_edges_named, new_vertices_named, NamesNewIn};

use crate::covering::covers;
use iges_base::NoMemory;
use shell_change::{Change, EdgeName, NewEdge, UseNow, VertexName};
use std::alloc::Global;

fn new_edge(edge: EdgeName) -> Option<u32>
    ensures { result ≡ edge_number edge }
{
    match edge {
        EdgeName::Old(_) => None,
        EdgeName::New(i) => Some(i),
    }
}

fn new_vertex(vertex: VertexName) -> Option<u32>
    ensures { result ≡ vertex_number vertex }
{
    match vertex {
        VertexName::Old(_) => None,
        VertexName::New(i) => Some(i),
    }
}

fn new_edge_of(item: UseNow) -> Option<u32>
    ensures { result ≡ use_edge item }
{
    match item {
        UseNow::OnEdge(item) => new_edge(item.edge),
        UseNow::AtVertex { .. } => None,
    }
}

fn new_vertex_of(item: UseNow) -> Option<u32>
    ensures { result ≡ use_vertex item }
{
    match item {
        UseNow::OnEdge(_) => None,
        UseNow::AtVertex { vertex, .. } => new_vertex(vertex),
    }
}

fn push_some(out: &mut Vec<u32>, number: Option<u32>) -> Result<(), NoMemory>
    ensures { IfOk result (λ _. out.new.items ≡ out.old.items ++ option_to_list number) }
{
    if let Some(number) = number {
        out.push(number)?;
    }
    Ok(())
}

fn edges_named(alloc: Global, uses: &[UseNow]) -> Result<Vec<u32>, NoMemory>
    ensures { IfOk result (λ out. out.items ≡ new_edges_named uses.now) }
{
    let mut out = Vec::new(alloc);
    'uses: for i in 0..uses.len() {
        push_some(&mut out, new_edge_of(uses[i]))?;
    }
    Ok(out)
}

fn vertices_of_uses(alloc: Global, uses: &[UseNow]) -> Result<Vec<u32>, NoMemory>
    ensures { IfOk result (λ out. out.items ≡ filter_map use_vertex uses.now) }
{
    let mut out = Vec::new(alloc);
    'uses: for i in 0..uses.len() {
        push_some(&mut out, new_vertex_of(uses[i]))?;
    }
    Ok(out)
}

fn push_ends(out: &mut Vec<u32>, edge: NewEdge) -> Result<(), NoMemory>
    ensures { IfOk result (λ _. out.new.items ≡ out.old.items ++ new_ends edge) }
{
    push_some(out, new_vertex(edge.from))?;
    push_some(out, new_vertex(edge.to))
}

fn push_all_ends(out: &mut Vec<u32>, edges: &[NewEdge]) -> Result<(), NoMemory>
    ensures { IfOk result (λ _. out.new.items ≡ out.old.items ++ flat_map new_ends edges.now) }
{
    'edges: for i in 0..edges.len() {
        push_ends(out, edges[i])?;
    }
    Ok(())
}

fn vertices_named(alloc: Global, uses: &[UseNow], edges: &[NewEdge]) -> Result<Vec<u32>, NoMemory>
    ensures { IfOk result (λ out. out.items ≡ new_vertices_named uses.now edges.now) }
{
    let mut out = vertices_of_uses(alloc, uses)?;
    push_all_ends(&mut out, edges)?;
    Ok(out)
}

/// Whether each new edge of a change is named by one of these uses, and each new vertex by one of them or by a new edge.
pub fn names_new(alloc: Global, uses: &[UseNow], change: &Change) -> Result<bool, NoMemory>
    ensures { IfOk result (λ named. IsTrue named ↔ NamesNewIn uses.now change.now) }
{
    let edges = edges_named(alloc, uses)?;
    let vertices = vertices_named(alloc, uses, change.edges.as_slice())?;
    let edges_covered = covers(alloc, edges.as_slice(), change.edges.len())?;
    let vertices_covered = covers(alloc, vertices.as_slice(), change.vertices.len())?;
    Ok(edges_covered && vertices_covered)
}
