//! The values of the lists of new vertices and of new edges.

ghost use Rattle.changed_records.specs.Lists.{coordinates, curve, edge_list_values, edge_source, new_edge_values, new_vertex_values, vertex_list_values, vertex_source};
ghost use Rattle.std.specs.Prelude.{◌≡◌, ◌++◌, IfOk, OnOk, flat_map};

use crate::fault::ChangeFault;
use crate::named::{Item, NewLists, push_item, vertex_item};
use crate::putting::push_number;
use iges_base::EntryNo;
use iges_fields::Values;
use iges_params::{File, push_copies};
use shell_change::{NewEdge, NewVertex};
use solid_data::Solid;
use std::alloc::Global;

fn vertex_source(solid: &Solid, vertex: NewVertex) -> Item
    ensures { result ≡ vertex_source solid.now vertex }
{
    let key = solid.vertex_key(vertex.like);
    Item {
        list: key.list.0,
        index: key.index,
    }
}

fn edge_source(solid: &Solid, edge: NewEdge) -> Item
    ensures { result ≡ edge_source solid.now edge }
{
    let key = solid.edge_key(edge.like);
    Item {
        list: key.list.0,
        index: key.index,
    }
}

fn push_coordinates(
    list: &mut Values,
    alloc: Global,
    file: &File,
    item: Item,
) -> Result<(), ChangeFault>
    ensures { OnOk result (list.new ≡ list.old ++ coordinates file.now item) }
{
    let Some(values) = file.values(EntryNo(item.list)) else {
        return Err(ChangeFault::Unfit);
    };
    let place = 1 + 3 * item.index.saturating_sub(1) as usize;
    push_copies(list, alloc, values, place, 3)?;
    Ok(())
}

fn push_curve(list: &mut Values, alloc: Global, file: &File, item: Item) -> Result<(), ChangeFault>
    ensures { OnOk result (list.new ≡ list.old ++ curve file.now item) }
{
    let Some(values) = file.values(EntryNo(item.list)) else {
        return Err(ChangeFault::Unfit);
    };
    let place = 1 + 5 * item.index.saturating_sub(1) as usize;
    push_copies(list, alloc, values, place, 1)?;
    Ok(())
}

fn push_edge(
    list: &mut Values,
    alloc: Global,
    file: &File,
    solid: &Solid,
    lists: NewLists,
    edge: NewEdge,
) -> Result<(), ChangeFault>
    ensures { OnOk result (list.new
        ≡ list.old ++ new_edge_values file.now solid.now lists edge) }
{
    push_curve(list, alloc, file, edge_source(solid, edge))?;
    push_item(list, vertex_item(solid, lists, edge.from)?)?;
    push_item(list, vertex_item(solid, lists, edge.to)?)?;
    Ok(())
}

// How many items there are, as a number that a value holds.
pub(crate) fn short_count(count: usize) -> Result<u32, ChangeFault>
    ensures { IfOk result (λ n. n ≡ count) }
{
    match u32::try_from(count) {
        Ok(n) => Ok(n),
        Err(_) => Err(ChangeFault::Unfit),
    }
}

fn push_vertices(
    list: &mut Values,
    alloc: Global,
    file: &File,
    solid: &Solid,
    vertices: &[NewVertex],
) -> Result<(), ChangeFault>
    ensures { OnOk result (list.new
        ≡ list.old ++ flat_map (new_vertex_values file.now solid.now) vertices.now) }
{
    'vertices: for i in 0..vertices.len() {
        push_coordinates(list, alloc, file, vertex_source(solid, vertices[i]))?;
    }
    Ok(())
}

fn push_edges(
    list: &mut Values,
    alloc: Global,
    file: &File,
    solid: &Solid,
    lists: NewLists,
    edges: &[NewEdge],
) -> Result<(), ChangeFault>
    ensures { OnOk result (list.new
        ≡ list.old ++ flat_map (new_edge_values file.now solid.now lists) edges.now) }
{
    'edges: for i in 0..edges.len() {
        push_edge(list, alloc, file, solid, lists, edges[i])?;
    }
    Ok(())
}

/// The values of a list of new vertices: their coordinates, as those of the old ones are spelled that they are like.
#[tactic(auto, unfolding(crate::specs::Lists::vertex_list_values))]
pub fn vertex_list_values(
    alloc: Global,
    file: &File,
    solid: &Solid,
    vertices: &[NewVertex],
) -> Result<Values, ChangeFault>
    ensures { IfOk result (λ list. list
        ≡ vertex_list_values file.now solid.now vertices.now) }
{
    let count = short_count(vertices.len())?;
    let mut list = Values::with_room(alloc, 1 + 3 * count as usize)?;
    push_number(&mut list, count)?;
    push_vertices(&mut list, alloc, file, solid, vertices)?;
    Ok(list)
}

/// The values of a list of new edges: each has the curve of the old one that it is like, and ends of its own.
#[tactic(auto, unfolding(crate::specs::Lists::edge_list_values))]
pub fn edge_list_values(
    alloc: Global,
    file: &File,
    solid: &Solid,
    lists: NewLists,
    edges: &[NewEdge],
) -> Result<Values, ChangeFault>
    ensures { IfOk result (λ list. list
        ≡ edge_list_values file.now solid.now lists edges.now) }
{
    let count = short_count(edges.len())?;
    let mut list = Values::with_room(alloc, 1 + 5 * count as usize)?;
    push_number(&mut list, count)?;
    push_edges(&mut list, alloc, file, solid, lists, edges)?;
    Ok(list)
}
