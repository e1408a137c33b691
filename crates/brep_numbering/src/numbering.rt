//! Edges and vertices by number.

ghost use Rattle.std.specs.Prelude.{◌≡◌, ◌∷◌, ◌++◌, [], false, nat_eq, IfSome, IfOk, OnOk, OnErr, is_some, if◌then◌else◌};
ghost use Rattle.std.specs.List.{list_any};
ghost use Rattle.indexmap.specs.IndexMap.{insert_entry};
ghost use Rattle.indexmap.specs.IndexSet.{insert_key};
ghost use Rattle.solid_data.specs.Ring.{place_of};
ghost use Rattle.solid_data.specs.SolidData.{same_edge, same_vertex};

use crate::positions::end_position;
use crate::slots::ItemSlots;
use iges_base::{ItemList, NoMemory};
use indexmap::IndexMap;
use solid_data::{Edge, EdgeId, EdgeKey, Edges, VertexId, VertexKey, Vertices};
use std::alloc::Global;
use std::marker::Model;
use std::mem::replace;

/// The edges and the vertices that were used so far, each numbered from 0 in the order of first appearance. The
/// maps are keyed by the numbers, and the number of a key is found by its slot, so no file can choose what is hashed.
/// The lists are what a solid takes.
#[derive(Drop)]
pub struct Numbering {
    edge_keys: IndexMap<u32, EdgeKey>,
    edge_slots: ItemSlots,
    edges: Edges,
    vertex_keys: IndexMap<u32, VertexKey>,
    vertex_slots: ItemSlots,
    vertices: Vertices,
}

impl Model for Numbering {
    ghost use Rattle.std.specs.Prelude.{◌≡◌, ℕ};
    ghost use Rattle.indexmap.specs.IndexMap.{values};
    ghost use Rattle.brep_numbering.specs.Keyed.{AreKeyed, edge_slot, vertex_slot};
    ghost use Rattle.brep_numbering.specs.Numbered.{Numbered};

    ghost Value = { Numbered };

    ghost view = { λ n. record { keys = record { edges = values n.edge_keys; vertices = values n.vertex_keys }; edges = n.edges } };

    ghost invariant = { λ n. AreKeyed (edge_slot n.edge_slots) n.edge_keys.entries × AreKeyed (vertex_slot n.vertex_slots) n.vertex_keys.entries
        × (values n.vertex_keys ≡ n.vertices) };
}

// Puts a key at a number. Room is made fourfold, since each time that it is made the table is filled anew.
fn put<K: Drop>(map: &mut IndexMap<u32, K>, number: u32, key: K) -> Result<(), NoMemory>
    ensures entries { OnOk result (map.new.entries
        ≡ insert_entry nat_eq map.old.entries number key) }
    ensures err { OnErr result (map.new.entries ≡ map.old.entries) }
{
    let len = map.len();
    if len == map.capacity() {
        map.reserve(len.saturating_mul(3))?;
    }
    map.insert(number, key)?;
    Ok(())
}

// Puts a key at a number, and the item that it is the key of at the end of the list. Where memory runs out, both stay as
// they were.
fn put_both<K: Drop, T: Drop>(
    map: &mut IndexMap<u32, K>,
    list: &mut ItemList<T>,
    number: u32,
    key: K,
    item: T,
) -> Result<(), NoMemory>
    ensures entries { OnOk result (map.new.entries
        ≡ insert_entry nat_eq map.old.entries number key) }
    ensures list { OnOk result (list.new ≡ list.old ++ item ∷ []) }
    ensures err { OnErr result (map.new.entries ≡ map.old.entries) }
    ensures list_err { OnErr result (list.new ≡ list.old) }
{
    let len = list.len();
    list.push(item)?;
    if let Err(error) = put(map, number, key) {
        list.truncate(len);
        return Err(error);
    }
    Ok(())
}

impl Numbering {
    /// The numbers where no edge and no vertex was used yet.
    pub fn new(alloc: Global) -> Numbering
        ensures { result ≡ record { keys = record { edges = []; vertices = [] }; edges = [] } }
    {
        Numbering {
            edge_keys: IndexMap::new(alloc),
            edge_slots: ItemSlots::new(alloc),
            edges: Edges::new(alloc),
            vertex_keys: IndexMap::new(alloc),
            vertex_slots: ItemSlots::new(alloc),
            vertices: Vertices::new(alloc),
        }
    }

    // The number of a vertex, where it appeared before.
    fn known_vertex(&self, key: VertexKey) -> Option<VertexId>
        ensures found { is_some result ≡ list_any (same_vertex key) self.now.keys.vertices }
        ensures id { IfSome result (λ id. id.0 ≡ place_of same_vertex self.now.keys.vertices key) }
    {
        let number = self.vertex_slots.get(key.list, key.index);
        let Some((_, known)) = self.vertex_keys.get_index(number as usize) else {
            return None;
        };
        if *known == key {
            Some(VertexId(number))
        } else {
            None
        }
    }

    /// The number of a vertex, which is the next one where the vertex didn't appear before.
    pub fn vertex(&mut self, key: VertexKey) -> Result<VertexId, NoMemory>
        ensures keys { OnOk result (self.new ≡ record {
          keys = record { edges = self.old.keys.edges; vertices = insert_key same_vertex self.old.keys.vertices key };
          edges = self.old.edges;
        }) }
        ensures id { IfOk result (λ id. id.0 ≡ place_of same_vertex self.new.keys.vertices key) }
    {
        if let Some(id) = self.known_vertex(key) {
            return Ok(id);
        }
        let number = end_position(self.vertex_keys.len())?;
        self.vertex_slots.set(key.list, key.index, number)?;
        put_both(&mut self.vertex_keys, &mut self.vertices, number, key, key)?;
        Ok(VertexId(number))
    }

    /// The number of an edge, where it appeared before.
    pub fn known_edge(&self, key: EdgeKey) -> Option<EdgeId>
        ensures found { is_some result ≡ list_any (same_edge key) self.now.keys.edges }
        ensures id { IfSome result (λ id. id.0 ≡ place_of same_edge self.now.keys.edges key) }
    {
        let number = self.edge_slots.get(key.list, key.index);
        let Some((_, known)) = self.edge_keys.get_index(number as usize) else {
            return None;
        };
        if *known == key {
            Some(EdgeId(number))
        } else {
            None
        }
    }

    // Puts an edge that is new at the end.
    fn put_edge(&mut self, edge: Edge) -> Result<EdgeId, NoMemory>
        requires { list_any (same_edge edge.key) self.old.keys.edges ≡ false }
        ensures put { OnOk result (self.new ≡ record {
          keys = record { edges = insert_key same_edge self.old.keys.edges edge.key; vertices = self.old.keys.vertices };
          edges = self.old.edges ++ edge ∷ [];
        }) }
        ensures id { IfOk result (λ id. id.0 ≡ place_of same_edge self.new.keys.edges edge.key) }
    {
        let number = end_position(self.edge_keys.len())?;
        self.edge_slots.set(edge.key.list, edge.key.index, number)?;
        put_both(&mut self.edge_keys, &mut self.edges, number, edge.key, edge)?;
        Ok(EdgeId(number))
    }

    /// The number of an edge that didn't appear before, which is the next one. The edge goes from the one vertex to the
    /// other.
    pub fn new_edge(
        &mut self,
        key: EdgeKey,
        from: VertexKey,
        to: VertexKey,
    ) -> Result<EdgeId, NoMemory>
        requires { list_any (same_edge key) self.old.keys.edges ≡ false }
        ensures keys { OnOk result (self.new.keys ≡ record {
          edges = insert_key same_edge self.old.keys.edges key;
          vertices = insert_key same_vertex (insert_key same_vertex self.old.keys.vertices from) to;
        }) }
        ensures edges { OnOk result (self.new.edges ≡ (if list_any (same_edge key) self.old.keys.edges then self.old.edges else self.old.edges ++ record {
          key = key;
          from = record { 0 = place_of same_vertex self.new.keys.vertices from };
          to = record { 0 = place_of same_vertex self.new.keys.vertices to };
        } ∷ [])) }
        ensures id { IfOk result (λ id. id.0 ≡ place_of same_edge self.new.keys.edges key) }
    {
        let from = self.vertex(from)?;
        let to = self.vertex(to)?;
        self.put_edge(Edge { key, from, to })
    }

    /// The vertices, by number. None are left.
    pub fn take_vertices(&mut self, alloc: Global) -> Vertices
        ensures vertices { result ≡ self.old.keys.vertices }
        ensures edges { self.new.edges ≡ self.old.edges }
    {
        self.vertex_keys = IndexMap::new(alloc);
        replace(&mut self.vertices, Vertices::new(alloc))
    }

    /// The edges, by number. None are left.
    pub fn take_edges(&mut self, alloc: Global) -> Edges
        ensures { result ≡ self.old.edges }
    {
        self.edge_keys = IndexMap::new(alloc);
        replace(&mut self.edges, Edges::new(alloc))
    }

    /// Begins again, with no edge and no vertex used. The slots are kept: what they say of keys that aren't used is free.
    pub fn restart(&mut self, alloc: Global)
        ensures { self.new ≡ record { keys = record { edges = []; vertices = [] }; edges = [] } }
    {
        self.edge_keys = IndexMap::new(alloc);
        self.edges = Edges::new(alloc);
        self.vertex_keys = IndexMap::new(alloc);
        self.vertices = Vertices::new(alloc);
    }
}
