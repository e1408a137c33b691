//! Whether edges and vertices are numbered as they first appear.

ghost use Rattle.std.specs.Prelude.{◌≡◌, ◌+◌, ◌^◌, ◌<◌, ◌++◌, ◌∷◌, [], IsTrue, IfOk, IfSome, flat_map, length, map, option_copied};
ghost use Rattle.solid_data.specs.Ring.{numbers_from};
ghost use Rattle.solid_data.specs.SolidData.{SolidData, edge_used, ends_of, vertices_used};
ghost use Rattle.solid_data.specs.declared.solid.Edge.{Edge as AnyEdge};
ghost use Rattle.change_pieces.specs.Reading.{appeared, appeared_with, Climbs, own_key};

use iges_base::{EntryNo, ItemList, NoMemory};
use shell_change::item_at;
use solid_data::{Edge, LoopUse, VertexKey, Vertices};
use std::alloc::Global;

// How many numbers have appeared with one more, if so many had before.
fn with_number(count: usize, number: u32) -> Option<usize>
    ensures { result ≡ appeared_with count number }
{
    let number = number as usize;
    if number == count {
        return Some(number + 1);
    }
    if number < count {
        return Some(count);
    }
    None
}

fn with_edge(count: usize, item: LoopUse) -> Option<usize>
    ensures { result ≡ appeared (edge_used item) count }
{
    match item {
        LoopUse::EdgeUse { edge, .. } => with_number(count, edge.0),
        LoopUse::VertexUse { .. } => Some(count),
    }
}

fn with_ends(count: usize, edge: Option<&Edge>) -> Option<usize>
    ensures { result ≡ appeared (ends_of (option_copied edge.entry)) count }
{
    let Some(edge) = edge else {
        return Some(count);
    };
    match with_number(count, edge.from.0) {
        None => None,
        Some(count) => with_number(count, edge.to.0),
    }
}

fn with_vertices(edges: &[Edge], count: usize, item: LoopUse) -> Option<usize>
    ensures { (s : SolidData) → s.edges ≡ edges.now → result ≡ appeared (vertices_used s item) count }
{
    match item {
        LoopUse::EdgeUse { edge, .. } => with_ends(count, edges.get(edge.0 as usize)),
        LoopUse::VertexUse { vertex } => with_number(count, vertex.0),
    }
}

/// How many edges appear, if they are numbered as they first do.
pub(crate) fn edges_appear(uses: &[LoopUse]) -> Option<usize>
    ensures { result ≡ appeared (flat_map edge_used uses.now) 0 }
{
    let mut count = 0;
    'uses: for i in 0..uses.len() {
        match with_edge(count, *item_at(uses, i)) {
            None => return None,
            Some(more) => count = more,
        }
    }
    Some(count)
}

/// How many vertices appear, if they are numbered as they first do.
pub(crate) fn vertices_appear(edges: &[Edge], uses: &[LoopUse]) -> Option<usize>
    ensures { (s : SolidData) → s.edges ≡ edges.now
        → result ≡ appeared (flat_map (vertices_used s) uses.now) 0 }
{
    let mut count = 0;
    'uses: for i in 0..uses.len() {
        match with_vertices(edges, count, *item_at(uses, i)) {
            None => return None,
            Some(more) => count = more,
        }
    }
    Some(count)
}

fn has_key(edge: &Edge, i: usize) -> bool
    ensures { IsTrue result → edge.now.key.index ≡ i + 1 }
{
    edge.key.index > 0 && edge.key.index as usize - 1 == i
}

/// Whether the keys of edges climb by one.
pub(crate) fn keys_climb(edges: &[Edge]) -> bool
    ensures { IsTrue result → Climbs (λ (e : AnyEdge). e.key.index) 1 edges.now }
{
    'edges: for i in 0..edges.len() {
        if !has_key(item_at(edges, i), i) {
            return false;
        }
    }
    true
}

/// Vertices with keys of their own. It errs where memory runs out, and where there are more than 2,147,483,648.
pub(crate) fn own_vertices(alloc: Global, count: usize) -> Result<Vertices, NoMemory>
    ensures { IfOk result (λ vertices. vertices ≡ map own_key (numbers_from 0 count)) }
{
    if count > 1 << 31 {
        return Err(NoMemory);
    }
    let mut out = ItemList::with_room(alloc, count)?;
    'vertices: for i in 0..count {
        out.push(VertexKey {
            list: EntryNo(1),
            index: i as u32 + 1,
        })?;
    }
    Ok(out)
}
