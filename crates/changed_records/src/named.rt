//! What edges and vertices are in the changed file.

ghost use Rattle.std.specs.Prelude.{◌≡◌, ◌+◌, ◌++◌, IfOk, OnOk};
ghost use Rattle.changed_records.specs.Items.{edge_item, item_values, vertex_item};

use crate::fault::ChangeFault;
use crate::putting::push_number;
use iges_base::NoMemory;
use iges_fields::Values;
use shell_change::{EdgeName, VertexName};
use solid_data::Solid;

/// An item of a list: the directory number of the list, and its place there, from 1.
#[derive(Clone, Copy)]
pub struct Item {
    pub list: u32,
    pub index: u32,
}

/// The directory numbers of the lists that have the new items of a change.
#[derive(Clone, Copy)]
pub struct NewLists {
    /// Of the list of its new vertices.
    pub vertices: u32,
    /// Of the list of its new edges.
    pub edges: u32,
}

// The place of an item in a list that counts from 1.
fn index_of(i: u32) -> Result<u32, ChangeFault>
    ensures { IfOk result (λ index. index ≡ i + 1) }
{
    match i.checked_add(1) {
        Some(index) => Ok(index),
        None => Err(ChangeFault::Unfit),
    }
}

pub(crate) fn vertex_item(
    solid: &Solid,
    lists: NewLists,
    name: VertexName,
) -> Result<Item, ChangeFault>
    ensures { IfOk result (λ item. item ≡ vertex_item solid.now lists name) }
{
    match name {
        VertexName::Old(vertex) => {
            let key = solid.vertex_key(vertex);
            Ok(Item {
                list: key.list.0,
                index: key.index,
            })
        }
        VertexName::New(i) => Ok(Item {
            list: lists.vertices,
            index: index_of(i)?,
        }),
    }
}

pub(crate) fn edge_item(solid: &Solid, lists: NewLists, name: EdgeName) -> Result<Item, ChangeFault>
    ensures { IfOk result (λ item. item ≡ edge_item solid.now lists name) }
{
    match name {
        EdgeName::Old(edge) => {
            let key = solid.edge_key(edge);
            Ok(Item {
                list: key.list.0,
                index: key.index,
            })
        }
        EdgeName::New(i) => Ok(Item {
            list: lists.edges,
            index: index_of(i)?,
        }),
    }
}

pub(crate) fn push_item(list: &mut Values, item: Item) -> Result<(), NoMemory>
    ensures { OnOk result (list.new ≡ list.old ++ item_values item) }
{
    push_number(list, item.list)?;
    push_number(list, item.index)
}
